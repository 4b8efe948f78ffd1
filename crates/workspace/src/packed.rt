// A part of the workspace that is not empty, in one number: where a definition's value or an argument stands.
// Kept: `as`, where there is no `From`.
// Kept: a number, for the fixed memory: an entry of the definitions has 32 bits for it, 64 arguments lie on each call's stack (`ArgumentsAt`).
ghost use Rattle.std.specs.Prelude.{◌≡◌, ◌≤◌, ◌<◌};
ghost use Rattle.workspace.specs.Packed.{pack, packed_from, packed_to};

pub fn pack(from: usize, to: usize) -> u32
    requires { (from < to) × (to ≤ 65536) }
    ensures { result ≡ pack from to }
{
    ((to - 1) * 65536 + from) as u32
}

pub fn packed_from(part: u32) -> usize
    ensures { result ≡ packed_from part }
{
    (part % 65536) as usize
}

pub fn packed_to(part: u32) -> usize
    ensures { result ≡ packed_to part }
{
    (part / 65536 + 1) as usize
}
