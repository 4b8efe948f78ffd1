#![tactic(auto)]

// Answers requests on standard input, one a line, each with a line. Assumes the contracts that the kit states of C's `read` and `write`.
mod answers;
mod calls;
mod input;
mod requests;
mod words;

use crate::calls::Lent;
use crate::input::Source;
use text::Text;

fn main(rt: HostRuntime) {
    let mut source = Source::new(rt.stdin());
    let mut lent = Lent::new();
    let mut out = Text::new(&rt);
    source.advance();
    while 0 < source.left {
        let request = requests::next(
            &mut source,
            &mut lent.stream,
            &mut lent.ends,
            &mut lent.output,
        );
        calls::answer(&mut out, request, &mut lent);
        // The answers so far go out before more is read, so that no one waits for them.
        if source.is_used_up() {
            out.flush();
        }
        source.advance();
    }
    out.flush();
}
