// The recursive evaluator: a list of expressions, and the code of a call. The steps that are left fall at each call of `list`.
// Document 01: "depth first, left to right".
ghost use Rattle.std.specs.Prelude.{◌≡◌};
ghost use Rattle.rules.specs.Scope.{view};
ghost use Rattle.rules.specs.Settings.{in_list_of};
ghost use Rattle.rules.specs.declared.plan.After.TheVariants.{Function, Code};
ghost use Rattle.evaluator.specs.Listed.{SomeReady, Answered, SomeEvaluating, EvaluatedBy, SomeCalling, CalledBy, SomeEnding, EndedBy};

use crate::element;
use crate::element::{Element, Left, Step, Values};
use atoms::{Reason, Refusal};
use rows::forms;
use rows::forms::Form;
use rules::here::{Here, Within};
use rules::plan;
use rules::plan::After;
use workspace::made;
use workspace::values::State;

// Evaluates the elements of a form. What it defines is written past what the scope shows, which stays.
// Kept: the lent arrays are no struct of references, by which a clause would say `lent.entry.table.now` for `table.now`.
#[cycle(run)]
pub fn list(
    s: &[u8],
    table: &[u32],
    w: &mut [u8],
    associations: &mut [u64; 64],
    args: &[u32; 64],
    definitions: &mut [u64; 256],
    mut here: Here,
    mut state: State,
    form: Form,
) -> Result<State, Refusal>
    requires { SomeReady s.now table.now w.old args.now (view associations.old definitions.old here.scope) state here form.flat form.first form.end }
    ensures { Answered s.now table.now w.old w.new args.now (view associations.old definitions.old here.scope) state here form result
        × (view associations.new definitions.new here.scope ≡ view associations.old definitions.old here.scope) }
{
    let floor = state.floor;
    let mut row = form.first;
    // Kept: only an element tells where the next begins.
    while row < form.end {
        let node = forms::element(table, form.flat, row);
        let behind = node.behind(row);
        let e = Element { node, row };
        let left = expression(s, table, w, associations, args, definitions, here, state, e)?;
        state = left.state;
        here = here.showing(left.scope);
        row = behind;
    }
    Ok(state.down_to(floor))
}

// Evaluates an expression of a list.
#[cycle(run)]
fn expression(
    s: &[u8],
    table: &[u32],
    w: &mut [u8],
    associations: &mut [u64; 64],
    args: &[u32; 64],
    definitions: &mut [u64; 256],
    here: Here,
    state: State,
    e: Element,
) -> Result<Left, Refusal>
    requires { SomeEvaluating s.now table.now w.old args.now (view associations.old definitions.old here.scope) state here e.node e.row }
    ensures { EvaluatedBy s.now table.now w.old w.new args.now (view associations.old definitions.old here.scope)
        (view associations.new definitions.new) state here e.node e.row result
        × (view associations.new definitions.new here.scope ≡ view associations.old definitions.old here.scope) }
{
    let row = e.row;
    let start = state.top;
    let step = element::begin(s, table, w, associations, args, definitions, here, state, e)?;
    match step {
        Step::Leaves(left) => Ok(left),
        Step::Inside(inner, sub, after) => {
            let within = after.within();
            let state = entered(
                s,
                table,
                w,
                associations,
                args,
                definitions,
                here,
                inner,
                sub,
                within,
            )?;
            let values = Values { state, start, row };
            finish(s, table, w, associations, definitions, here, after, values)
        }
    }
}

// What a form leaves whose elements were evaluated, by what becomes of their values.
#[cycle(run)]
fn finish(
    s: &[u8],
    table: &[u32],
    w: &mut [u8],
    associations: &mut [u64; 64],
    definitions: &mut [u64; 256],
    here: Here,
    after: After,
    values: Values,
) -> Result<Left, Refusal>
    requires { SomeEnding s.now table.now w.old (view associations.old definitions.old here.scope) values.state here values.start after }
    ensures { EndedBy s.now table.now w.old w.new (view associations.old definitions.old here.scope)
        (view associations.new definitions.new) here values.state values.start values.row after result
        × (view associations.new definitions.new here.scope ≡ view associations.old definitions.old here.scope) }
{
    match after {
        After::Make(making) => element::finish(w, definitions, here.scope, making, values),
        After::Function { code, visible } => function(
            s,
            table,
            w,
            associations,
            definitions,
            here,
            code,
            visible,
            values,
        ),
        After::Code { first, end } => code(
            s,
            table,
            w,
            associations,
            definitions,
            here,
            first,
            end,
            values,
        ),
    }
}

// Calls the function whose code is the form at a row.
// Kept: this and `code` are two, so that `call` has two callers and stays out of the frame of a list.
#[cycle(run)]
fn function(
    s: &[u8],
    table: &[u32],
    w: &mut [u8],
    associations: &mut [u64; 64],
    definitions: &[u64; 256],
    here: Here,
    code: usize,
    visible: usize,
    values: Values,
) -> Result<Left, Refusal>
    requires { SomeEnding s.now table.now w.old (view associations.old definitions.now here.scope) values.state here values.start (Function code visible) }
    ensures { EndedBy s.now table.now w.old w.new (view associations.old definitions.now here.scope)
        (view associations.new definitions.now) here values.state values.start values.row (Function code visible) result
        × (view associations.new definitions.now here.scope ≡ view associations.old definitions.now here.scope) }
{
    let at = here.showing(here.scope.up_to(visible));
    let body = plan::code_at(table, code);
    let state = call(s, table, w, associations, definitions, at, body, values)?;
    Ok(Left {
        state,
        scope: here.scope,
    })
}

// Calls the code of a `subst` form.
#[cycle(run)]
fn code(
    s: &[u8],
    table: &[u32],
    w: &mut [u8],
    associations: &mut [u64; 64],
    definitions: &[u64; 256],
    here: Here,
    first: usize,
    end: usize,
    values: Values,
) -> Result<Left, Refusal>
    requires { SomeEnding s.now table.now w.old (view associations.old definitions.now here.scope) values.state here values.start (Code first end) }
    ensures { EndedBy s.now table.now w.old w.new (view associations.old definitions.now here.scope)
        (view associations.new definitions.now) here values.state values.start values.row (Code first end) result
        × (view associations.new definitions.now here.scope ≡ view associations.old definitions.now here.scope) }
{
    let body = Form {
        first,
        end,
        flat: false,
    };
    let state = call(s, table, w, associations, definitions, here, body, values)?;
    Ok(Left {
        state,
        scope: here.scope,
    })
}

// Evaluates the elements of a form in a list of its kind.
#[cycle(run)]
fn entered(
    s: &[u8],
    table: &[u32],
    w: &mut [u8],
    associations: &mut [u64; 64],
    args: &[u32; 64],
    definitions: &mut [u64; 256],
    here: Here,
    state: State,
    form: Form,
    within: Within,
) -> Result<State, Refusal>
    requires { SomeReady s.now table.now w.old args.now (view associations.old definitions.old here.scope) state (in_list_of within here) form.flat form.first form.end }
    ensures { Answered s.now table.now w.old w.new args.now (view associations.old definitions.old here.scope) state (in_list_of within here) form result
        × (view associations.new definitions.new here.scope ≡ view associations.old definitions.old here.scope) }
{
    let at = here.entering(within);
    list(
        s,
        table,
        w,
        associations,
        args,
        definitions,
        at,
        state,
        form,
    )
}

// Runs a code whose arguments are the values. Its definitions are written over those that it doesn't see.
#[cycle(run)]
fn call(
    s: &[u8],
    table: &[u32],
    w: &mut [u8],
    associations: &mut [u64; 64],
    definitions: &[u64; 256],
    here: Here,
    body: Form,
    values: Values,
) -> Result<State, Refusal>
    requires { SomeCalling s.now table.now w.old (view associations.old definitions.now here.scope) values.state here body values.start }
    ensures { CalledBy s.now table.now w.old w.new (view associations.old definitions.now here.scope) values.state here body values.start values.row result
        × (view associations.new definitions.now here.scope ≡ view associations.old definitions.now here.scope) }
{
    let Values { state, start, row } = values;
    if 32 <= here.frame.depth {
        return Err(Refusal::new(Reason::TooMany, row));
    }
    let mut args = [0u32; 64];
    let mut inner = *definitions;
    let top = state.top;
    let count = made::spread(&w[start..top], start, &mut args);
    let inside = here.called(here.scope, count, top);
    let ran = list(
        s,
        table,
        w,
        associations,
        &args,
        &mut inner,
        inside,
        state,
        body,
    )?;
    element::returned(s, table, w, ran, body, start, top, row)
}
