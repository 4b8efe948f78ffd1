// One expression: its step, its rule, and what it leaves. Nothing here evaluates what is inside it. Document 01: "Steps", refusal 16.
ghost use Rattle.std.specs.Prelude.{◌≡◌, List, false, ℕ, ◌<◌, length, get_or, Ok};
ghost use Rattle.spec.specs.Expr.{when◌then◌else◌, form, Exprs, only};
ghost use Rattle.spec.specs.Nodes.{Node as Expression, bytecode, Nodes, becomes};
ghost use Rattle.spec.specs.Runs.{hold};
ghost use Rattle.spec.specs.Plan.{Here as Known, Finish};
ghost use Rattle.spec.specs.Evaluation.{Call, one_value, finish as finished, eval};
ghost use Rattle.laws.specs.Sanity.{RuleNumber};
ghost use Rattle.atoms.specs.Refusals.{number};
ghost use Rattle.rows.specs.Rows.{RowsAt, NodesAt};
ghost use Rattle.workspace.specs.Completed.{with_steps, stepped, with_top, Completed};
ghost use Rattle.rules.specs.Scope.{view};
ghost use Rattle.rules.specs.Settings.{Sees};
ghost use Rattle.evaluator.specs.Listed.{LeftBy, Begun, Beginning, SomeBeginning, FinishedBy, Finishing, SomeFinishing, Ran};
ghost use Rattle.evaluator.specs.declared.element.Step.TheVariants.{Leaves};
ghost use Rattle.evaluator.specs.Performed.{Performs, SomePerforming, Unfolding, SomeUnfolding, Decided};

use atoms::{Reason, Refusal};
use rows::forms::{Form, Node};
use rows::table;
use rules::here::Here;
use rules::plan;
use rules::plan::{After, Making, Task};
use rules::scope::Scope;
use workspace::values::State;
use workspace::{made, packed, values};

// An expression of a list: what it is, and its row.
#[derive(Clone, Copy)]
pub struct Element {
    pub node: Node,
    pub row: usize,
}

// What an expression leaves: the state, and what is visible to what follows.
#[derive(Clone, Copy)]
pub struct Left {
    pub state: State,
    pub scope: Scope,
}

// The values of a form's elements, which stand from `start` up to the top; and the form's row.
#[derive(Clone, Copy)]
pub struct Values {
    pub state: State,
    pub start: usize,
    pub row: usize,
}

// After an expression's step: it is done, or a list is to be evaluated first, and what becomes of its values.
// Kept: no closure, as `Task` of rules.
#[derive(Clone, Copy)]
pub enum Step {
    Leaves(Left),
    Inside(State, Form, After),
}

// The step of an expression that is completed.
fn done(state: State, scope: Scope) -> Result<Step, Refusal>
    ensures { result ≡ Ok (Leaves (record { state = state; scope = scope })) }
{
    Ok(Step::Leaves(Left { state, scope }))
}

// A task, with the state before it and the row of the expression if it is an atom.
#[derive(Clone, Copy)]
struct Decision {
    state: State,
    task: Task,
    atom: usize,
}

// Carries out a task, where the step is taken.
fn perform(
    s: &[u8],
    table: &[u32],
    w: &mut [u8],
    associations: &mut [u64; 64],
    definitions: &mut [u64; 256],
    scope: Scope,
    decision: Decision,
    row: usize,
) -> Result<Step, Refusal>
    requires { SomePerforming s.now table.now w.old (view associations.old definitions.old scope) scope decision.state decision.task decision.atom row }
    ensures { ((bound : ℕ) (st : State) (left : ℕ) (run : Call) (e : Expression) (h : Known) → decision.state ≡ with_steps st left
        → Performs s.now table.now bound w.old (view associations.old definitions.old scope) scope st left decision.task decision.atom row e h
        → Begun s.now table.now bound w.old w.new (view associations.old definitions.old scope)
        (view associations.new definitions.new) scope st e h (hold st.steps st.room (eval run e h)) result)
        × (view associations.new definitions.new scope ≡ view associations.old definitions.old scope) }
{
    let Decision { state, task, atom } = decision;
    match task {
        Task::Inside { list, after } => Ok(Step::Inside(state, list, after)),
        // `decided` has refused it, or unfolded it.
        Task::Failed { .. } | Task::Unfold(_) => unreachable!(),
        Task::Own => done(values::own(s, table, w, state, atom, row)?, scope),
        Task::Again { from, to } => {
            let top = state.top;
            done(values::copied(w, state, from, to, top, row)?, scope)
        }
        Task::Ns { form, marker, id } => {
            let more = scope.associate(associations, marker, id);
            done(values::itself(s, table, w, state, form, row)?, more)
        }
        // Kept: `as`, since a row is below 65,536; there is no `From`.
        Task::Function { key, code } => done(state, scope.add(definitions, key, code as u32)),
    }
}

// How many expressions a flat list has.
fn count(table: &[u32], first: usize, end: usize) -> u64
    requires { (rows : List ℕ) × RowsAt table.now first end rows }
    ensures { (rows : List ℕ) → RowsAt table.now first end rows → result ≡ length rows }
{
    let mut row = first;
    let mut n: u64 = 0;
    // Kept: only a row tells where the next begins.
    while row < end {
        row = table::next(table, row);
        n += 1;
    }
    n
}

// The row of the expression behind so many of a flat list.
fn row_of(table: &[u32], first: usize, steps: u64) -> usize
    requires { (end : ℕ) × (rows : List ℕ) × RowsAt table.now first end rows × (steps < length rows) }
    ensures { (end : ℕ) (rows : List ℕ) → RowsAt table.now first end rows → steps < length rows → result ≡ get_or rows steps 0 }
{
    let mut row = first;
    for _ in 0..steps {
        row = table::next(table, row);
    }
    row
}

// What is to be done with the result of a bytecode form, after a step for each expression of its flat list.
fn unfolded(
    s: &[u8],
    table: &[u32],
    definitions: &[u64; 256],
    here: Here,
    state: State,
    flat: Form,
    row: usize,
) -> Result<Decision, Refusal>
    requires { (associations : List ℕ) × SomeUnfolding s.now table.now (view associations definitions.now here.scope) state here flat row }
    ensures { (associations args : List ℕ) (bound : ℕ) (w : List ℕ) (st : State) (node : Node) (es : Nodes) (rows : List ℕ) (e : Expression) (h : Known) → state ≡ stepped st → 0 < st.steps
        → Unfolding s.now table.now row flat rows e
        → Beginning s.now table.now bound w args (view associations definitions.now here.scope) st here node row (bytecode row es (becomes rows e)) h
        → Decided s.now table.now bound w (view associations definitions.now here.scope) here.scope st row (bytecode row es (becomes rows e)) h result }
{
    let steps = state.steps;
    let n = count(table, flat.first, flat.end);
    if steps < n {
        return Err(Refusal::new(Reason::NoSteps, row_of(table, flat.first, steps)));
    }
    // The steps first: the other way round, the compiler keeps tasks in memory.
    let left = state.less(n);
    match plan::result(s, table, definitions, here, flat) {
        Err(reason) => Err(Refusal::new(reason, row)),
        Ok(task) => Ok(Decision {
            state: left,
            task,
            atom: flat.first,
        }),
    }
}

// Why a bytecode form is refused, by its mark.
fn failed(mark: u32) -> Reason
    requires { RuleNumber mark }
    ensures { number result ≡ mark }
{
    Reason::try_from(mark).unwrap()
}

// What is to be done with an expression whose step is taken.
fn decided(
    s: &[u8],
    table: &[u32],
    associations: &[u64; 64],
    args: &[u32; 64],
    definitions: &[u64; 256],
    here: Here,
    state: State,
    e: Element,
) -> Result<Decision, Refusal>
    requires { (w : List ℕ) × (st : State) × (state ≡ stepped st) × (0 < st.steps) × SomeBeginning s.now table.now w args.now (view associations.now definitions.now here.scope) st here e.node e.row }
    ensures { (bound : ℕ) (w : List ℕ) (st : State) (x : Expression) (h : Known) → state ≡ stepped st → 0 < st.steps
        → Beginning s.now table.now bound w args.now (view associations.now definitions.now here.scope) st here e.node e.row x h
        → Decided s.now table.now bound w (view associations.now definitions.now here.scope) here.scope st e.row x h result }
{
    let node = e.node;
    let row = e.row;
    match plan::plan(s, table, associations, args, definitions, here, node, row) {
        Err(reason) => Err(Refusal::new(reason, row)),
        Ok(Task::Failed { mark }) => Err(Refusal::new(failed(mark), row)),
        Ok(Task::Unfold(flat)) => unfolded(s, table, definitions, here, state, flat, row),
        Ok(task) => Ok(Decision {
            state,
            task,
            atom: row,
        }),
    }
}

// The step of an expression.
pub fn begin(
    s: &[u8],
    table: &[u32],
    w: &mut [u8],
    associations: &mut [u64; 64],
    args: &[u32; 64],
    definitions: &mut [u64; 256],
    here: Here,
    state: State,
    e: Element,
) -> Result<Step, Refusal>
    requires { SomeBeginning s.now table.now w.old args.now (view associations.old definitions.old here.scope) state here e.node e.row }
    ensures { ((bound : ℕ) (run : Call) (x : Expression) (h : Known)
        → Beginning s.now table.now bound w.old args.now (view associations.old definitions.old here.scope) state here e.node e.row x h
        → Begun s.now table.now bound w.old w.new (view associations.old definitions.old here.scope)
        (view associations.new definitions.new) here.scope state x h (hold state.steps state.room (eval run x h)) result)
        × (view associations.new definitions.new here.scope ≡ view associations.old definitions.old here.scope) }
{
    let row = e.row;
    let stepped = state.step(row)?;
    let decision = decided(s, table, associations, args, definitions, here, stepped, e)?;
    perform(
        s,
        table,
        w,
        associations,
        definitions,
        here.scope,
        decision,
        row,
    )
}

// The values of a form's elements made into what the form leaves.
pub fn finish(
    w: &mut [u8],
    definitions: &mut [u64; 256],
    scope: Scope,
    making: Making,
    values: Values,
) -> Result<Left, Refusal>
    requires { SomeFinishing w.old scope values.state making values.start }
    ensures { ((s t numbers : List ℕ) (run : Call) (h : Known) (f : Finish) (vs : Exprs) → FinishedBy scope making f → Finishing w.old values.state values.start f vs
        → Sees s t w.old values.state.floor (view numbers definitions.old scope) h
        → LeftBy s t w.old w.new (view numbers definitions.new) scope (with_top values.state values.state.room values.start)
        (hold values.state.steps values.state.room (finished run values.row h f vs)) result)
        × ((numbers : List ℕ) → view numbers definitions.new scope ≡ view numbers definitions.old scope) }
{
    let Values { state, start, row } = values;
    match making {
        Making::Form => Ok(Left {
            state: made::wrapped(w, state, start, start, row)?,
            scope,
        }),
        Making::Concat => Ok(Left {
            state: made::joined(w, state, start, row)?,
            scope,
        }),
        Making::Define { key } => {
            let stored = values::stored(w, state, start);
            let part = packed::pack(stored.floor, state.floor);
            Ok(Left {
                state: stored,
                scope: scope.add(definitions, key, part),
            })
        }
    }
}

// The values of a code, which stand from `from` up to the top, made into the call's.
pub fn returned(
    s: &[u8],
    table: &[u32],
    w: &mut [u8],
    state: State,
    body: Form,
    start: usize,
    from: usize,
    row: usize,
) -> Result<State, Refusal>
    requires nodes_at { (es : Nodes) × NodesAt s.now table.now false body.first body.end es }
    requires ran { (vs : Exprs) × Ran w.old state start from vs }
    ensures { (vs : Exprs) (es : Nodes) → Ran w.old state start from vs → NodesAt s.now table.now false body.first body.end es
        → Completed w.old w.new state start row (when one_value es then vs else only (form vs)) result }
{
    if body.is_single(s, table) {
        let top = state.top;
        return values::copied(w, state, from, top, start, row);
    }
    made::wrapped(w, state, start, from, row)
}
