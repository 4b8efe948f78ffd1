// What is to be done with an expression whose step is taken: the refusals 13, 12, 11, 14, 15, 19, and the rule that applies. Nothing here writes.
// Document 01: the rules of "Evaluation".
ghost use Rattle.std.specs.Prelude.{◌≡◌, List, true, false, ℕ, ◌≤◌, ◌<◌, Ok, IfOk};
ghost use Rattle.spec.specs.Expr.{Atom};
ghost use Rattle.spec.specs.Nodes.{ns, Node as Expression, leaf, branch, Nodes, Outcome, head_word};
ghost use Rattle.spec.specs.Plan.{Arguments, Plan, expect_one, expect_int, plan_ns, plan_definition, plan_define, plan_concat, plan_other, plan};
ghost use Rattle.rows.specs.Rows.{mark as mark_of, LeafAt, led_by_reference, NodesAt, OutcomeAt, ResultAt};
ghost use Rattle.rows.specs.Forms.{IsElement, SomeNodes};
ghost use Rattle.rows.specs.declared.forms.Node.TheVariants.{Branch};
ghost use Rattle.rules.specs.Scope.{View, view};
ghost use Rattle.rules.specs.Settings.{CodeAt, ArgumentsOf};
ghost use Rattle.rules.specs.Planned.{within_made, within_of, passing, by_number, Planned, Planning, Answers, AnswersForm, AnswersBytecode, AnswersElement};
ghost use Rattle.rules.specs.declared.here.Within.TheVariants.{Top, Inner};
ghost use Rattle.rules.specs.declared.plan.After.TheVariants.{Make};
ghost use Rattle.rules.specs.declared.plan.Task.TheVariants.{Inside};

use crate::here::{Frame, Here, Within};
use crate::scope::{Content, Scope};
use crate::{entries, namespaces};
use atoms::{Kind, Reason};
use rows::forms::{Form, Node, Operands};
use rows::words::{Core, Word};
use rows::{arrays, forms, table};
use workspace::packed;

// Kept: `Making`, `After` and `Task` are no closures. No two would have one type, so that a box would be handed out, and there is no heap.

// What the values of a list are made into.
#[derive(Clone, Copy, Debug, PartialEq, Eq)]
pub enum Making {
    Form,
    Define { key: u32 },
    Concat,
}

// What becomes of the values of a list: they are made into others, or are the arguments of a code.
#[derive(Clone, Copy, Debug, PartialEq, Eq)]
pub enum After {
    Make(Making),
    Function { code: usize, visible: usize },
    Code { first: usize, end: usize },
}

impl Making {
    fn within(self) -> Within
        ensures { result ≡ within_made self }
    {
        match self {
            Making::Form => Within::Element,
            Making::Define { .. } | Making::Concat => Within::Inner,
        }
    }
}

impl After {
    // What list the values are of.
    pub fn within(self) -> Within
        ensures { result ≡ within_of self }
    {
        match self {
            After::Make(making) => making.within(),
            After::Function { .. } | After::Code { .. } => Within::Inner,
        }
    }
}

#[derive(Clone, Copy, Debug, PartialEq, Eq)]
pub enum Task {
    // The expression is an atom and stands for itself.
    Own,
    // Its values stand in the workspace already, from one byte up to another.
    Again { from: usize, to: usize },
    // A marker is associated, and the form, of atoms, stands for itself.
    Ns { form: Form, marker: u32, id: u32 },
    // A function is defined, whose code is the form at a row.
    Function { key: u32, code: usize },
    // A bytecode form is refused.
    // Kept: no `Reason`. A mark is told as it stands in the table, and this crate asks no more of it.
    Failed { mark: u32 },
    // A bytecode form's flat list is unfolded.
    Unfold(Form),
    // The elements of a range are evaluated first.
    Inside { list: Form, after: After },
}

fn make(list: Form, making: Making) -> Result<Task, Reason>
    ensures { result ≡ Ok (Inside list (Make making)) }
{
    Ok(Task::Inside {
        list,
        after: After::Make(making),
    })
}

// The atom at a row.
fn leaf(
    s: &[u8],
    table: &[u32],
    definitions: &[u64; 256],
    here: Here,
    row: usize,
) -> Result<Task, Reason>
    requires { (here.scope.defined ≤ 256) × ((a : Atom) × LeafAt s.now table.now row a) }
    ensures { (associations args : List ℕ) (place : ℕ) (a : Atom) → LeafAt s.now table.now row a
        → Answers s.now table.now args (view associations definitions.now here.scope) here row (leaf place a) (plan (leaf place a)) result }
{
    if !table::has_kind(table, row, Kind::Reference) {
        return Ok(Task::Own);
    }
    let key = table::key(s, table, row);
    if Core::is_function(key) {
        return Err(Reason::NoValue);
    }
    match here.scope.look_up(definitions, key) {
        Some(Content::Value { from, to }) => Ok(Task::Again { from, to }),
        Some(Content::Function { .. }) => Err(Reason::NoValue),
        None => Ok(Task::Own),
    }
}

// An ns form at the top level.
fn namespace(
    s: &[u8],
    table: &[u32],
    associations: &[u64; 64],
    here: Here,
    form: Form,
    row: usize,
) -> Result<Task, Reason>
    requires within_value { here.within ≡ Top }
    requires nodes_at { (es : Nodes) × NodesAt s.now table.now false form.first form.end es }
    requires by_index { (definitions : List ℕ) × (args : List ℕ) × Planning s.now table.now args (view associations.now definitions here.scope) here row }
    ensures { (definitions args : List ℕ) (at : ℕ) (es : Nodes) → NodesAt s.now table.now false form.first form.end es → head_word es ≡ ns
        → Answers s.now table.now args (view associations.now definitions here.scope) here at (branch row es) (λ h. plan_ns h.within es h) result }
{
    let Operands::Two(reference, array) = form.operands(table) else {
        return Err(Reason::WrongElements);
    };
    if !table::has_kind(table, reference, Kind::Reference)
        || !table::has_kind(table, array, Kind::Array)
    {
        return Err(Reason::WrongElements);
    }
    let to = table::end(table, array);
    let from = arrays::body(s, table, array);
    let size = to - from;
    if !(1..=64).contains(&size) {
        return Err(Reason::WrongElements);
    }
    let marker = table::key(s, table, reference) / 256;
    let scope = here.scope;
    if namespaces::clash(s, table, associations, scope, row, marker, from, to) {
        return Err(Reason::WrongMarker);
    }
    if 64 <= scope.associated {
        return Err(Reason::TooMany);
    }
    let id = entries::id(entries::STREAM, from, size);
    Ok(Task::Ns { form, marker, id })
}

fn ns(
    s: &[u8],
    table: &[u32],
    associations: &[u64; 64],
    here: Here,
    form: Form,
    row: usize,
) -> Result<Task, Reason>
    requires nodes_at { (es : Nodes) × NodesAt s.now table.now false form.first form.end es }
    requires by_index { (definitions : List ℕ) × (args : List ℕ) × Planning s.now table.now args (view associations.now definitions here.scope) here row }
    ensures { (definitions args : List ℕ) (at : ℕ) (es : Nodes) → NodesAt s.now table.now false form.first form.end es → head_word es ≡ ns
        → Answers s.now table.now args (view associations.now definitions here.scope) here at (branch row es) (λ h. plan_ns h.within es h) result }
{
    if here.within != Within::Top {
        return Err(Reason::Misplaced);
    }
    namespace(s, table, associations, here, form, row)
}

// A define form where it is allowed.
fn definition(
    s: &[u8],
    table: &[u32],
    associations: &[u64; 64],
    here: Here,
    form: Form,
) -> Result<Task, Reason>
    requires { (here.scope.associated ≤ 64) × (form.flat ≡ false) × ((es : Nodes) × NodesAt s.now table.now false form.first form.end es) }
    ensures { (definitions args : List ℕ)
        → AnswersForm s.now table.now args (view associations.now definitions here.scope) here false form plan_definition result }
{
    let Operands::Two(reference, value) = form.operands(table) else {
        return Err(Reason::WrongElements);
    };
    if !table::has_kind(table, reference, Kind::Reference) {
        return Err(Reason::WrongElements);
    }
    let word = forms::word_at(s, table, value);
    if word == Word::Rest {
        return Err(Reason::WrongElements);
    }
    let key = table::key(s, table, reference);
    if namespaces::undefinable(associations, here.scope, key / 256) {
        return Err(Reason::WrongMarker);
    }
    if 256 <= here.scope.defined {
        return Err(Reason::TooMany);
    }
    if word == Word::Subst {
        return Ok(Task::Function {
            key: key + entries::FUNCTION,
            code: value,
        });
    }
    make(form.starting_at(value), Making::Define { key })
}

fn define(
    s: &[u8],
    table: &[u32],
    associations: &[u64; 64],
    here: Here,
    form: Form,
) -> Result<Task, Reason>
    requires { (here.scope.associated ≤ 64) × (form.flat ≡ false) × ((es : Nodes) × NodesAt s.now table.now false form.first form.end es) }
    ensures { (definitions args : List ℕ)
        → AnswersForm s.now table.now args (view associations.now definitions here.scope) here false form (λ es h. plan_define h.within es h) result }
{
    if here.within == Within::Inner {
        return Err(Reason::Misplaced);
    }
    definition(s, table, associations, here, form)
}

fn concat(s: &[u8], table: &[u32], form: Form) -> Result<Task, Reason>
    requires { (form.flat ≡ false) × ((es : Nodes) × NodesAt s.now table.now false form.first form.end es) }
    ensures { (args : List ℕ) (v : View) (here : Here) → AnswersForm s.now table.now args v here false form (λ es h. plan_concat es) result }
{
    let Operands::Two(a, b) = form.operands(table) else {
        return Err(Reason::WrongElements);
    };
    if forms::word_at(s, table, a) == Word::Rest || forms::word_at(s, table, b) == Word::Rest {
        return Err(Reason::WrongElements);
    }
    make(form.starting_at(a), Making::Concat)
}

// The n of an arg or a rest form, which is a head and a small integer.
fn number(s: &[u8], table: &[u32], form: Form) -> Result<usize, Reason>
    requires { (es : Nodes) × NodesAt s.now table.now false form.first form.end es }
    ensures as_planned { (es : Nodes) (rule : ℕ → Plan) → NodesAt s.now table.now false form.first form.end es
        → expect_one es (λ a. expect_int a rule) ≡ by_number result rule }
    ensures small { IfOk result (λ n. n < 64) }
{
    let Operands::One(row) = form.operands(table) else {
        return Err(Reason::WrongElements);
    };
    if !table::has_kind(table, row, Kind::Int) {
        return Err(Reason::WrongElements);
    }
    Ok(table::small(s, table, row))
}

// An arg form, or a rest form, with this n.
fn arguments(args: &[u32; 64], frame: Frame, n: usize, rest: bool) -> Result<Task, Reason>
    requires { n < 64 }
    ensures { (s t w : List ℕ) (floor top at : ℕ) (v : View) (sc : Scope) (e : Expression) (xs : Arguments) → ArgumentsOf w args.now frame top xs
        → Planned s t w floor v sc at e result (passing rest n xs) }
{
    if frame.depth == 0 || frame.count < n {
        return Err(Reason::NoArgument);
    }
    let end = frame.end;
    if n < frame.count {
        let part = args[n];
        let from = packed::packed_from(part);
        let to = if rest { end } else { packed::packed_to(part) };
        return Ok(Task::Again { from, to });
    }
    if rest {
        return Ok(Task::Again { from: end, to: end });
    }
    Err(Reason::NoArgument)
}

// The elements of the code of the form at a row: what follows its head.
pub fn code_at(table: &[u32], row: usize) -> Form
    requires { (s : List ℕ) × (es : Nodes) × CodeAt s table.now row es }
    ensures { (s : List ℕ) (es : Nodes) → CodeAt s table.now row es → (result.flat ≡ false) × NodesAt s table.now false result.first result.end es }
{
    forms::written(table, row).rest(table)
}

// A form whose head is a plain reference: a call of a function, or data.
fn named(
    s: &[u8],
    table: &[u32],
    definitions: &[u64; 256],
    here: Here,
    form: Form,
) -> Result<Task, Reason>
    requires by_index { (associations : List ℕ) × (args : List ℕ) × (place : ℕ) × Planning s.now table.now args (view associations definitions.now here.scope) here place }
    requires some_nodes { SomeNodes s.now table.now form × ((es : Nodes) → NodesAt s.now table.now form.flat form.first form.end es → led_by_reference es ≡ true) }
    ensures { (associations args : List ℕ)
        → AnswersForm s.now table.now args (view associations definitions.now here.scope) here form.flat form (λ es h. plan_other es h.scope) result }
{
    let key = table::key(s, table, form.first);
    match here.scope.look_up(definitions, key) {
        Some(Content::Function { code, visible }) => Ok(Task::Inside {
            list: form.rest(table),
            after: After::Function { code, visible },
        }),
        _ => make(form, Making::Form),
    }
}

// A form whose head is no reference: a call of a `subst` form, or data.
fn unnamed(s: &[u8], table: &[u32], here: Here, form: Form) -> Result<Task, Reason>
    requires { SomeNodes s.now table.now form × ((es : Nodes) → NodesAt s.now table.now form.flat form.first form.end es → led_by_reference es ≡ false) }
    ensures { (associations definitions args : List ℕ)
        → AnswersForm s.now table.now args (view associations definitions here.scope) here form.flat form (λ es h. plan_other es h.scope) result }
{
    if form.is_empty() {
        return make(form, Making::Form);
    }
    if let Node::Branch(head) = forms::element(table, form.flat, form.first)
        && head.word(s, table) == Word::Subst
    {
        let body = head.rest(table);
        return Ok(Task::Inside {
            list: form.rest(table),
            after: After::Code {
                first: body.first,
                end: body.end,
            },
        });
    }
    make(form, Making::Form)
}

// A bytecode form, by its head's mark.
fn bytecode(table: &[u32], form: Form, mark: u32) -> Result<Task, Reason>
    requires { (mark ≡ mark_of table.now form.first) × (form.first < 65536) × ((s : List ℕ) × (place : ℕ) × (o : Outcome) × OutcomeAt s table.now place form o) }
    ensures { (s : List ℕ) (place : ℕ) (o : Outcome) → OutcomeAt s table.now place form o → AnswersBytecode s table.now place o result }
{
    if 2 < mark {
        return Ok(Task::Failed { mark });
    }
    let behind = form.first + 1;
    let first = if mark == 2 {
        table::next(table, behind)
    } else {
        behind
    };
    Ok(Task::Unfold(form.flat_from(first)))
}

fn branch(
    s: &[u8],
    table: &[u32],
    associations: &[u64; 64],
    args: &[u32; 64],
    definitions: &[u64; 256],
    here: Here,
    form: Form,
    row: usize,
) -> Result<Task, Reason>
    requires { Planning s.now table.now args.now (view associations.now definitions.now here.scope) here row × ((e : Expression) × IsElement s.now table.now row (Branch form) e) }
    ensures { (e : Expression) → IsElement s.now table.now row (Branch form) e → AnswersElement s.now table.now args.now (view associations.now definitions.now here.scope) here e result }
{
    match form.word(s, table) {
        Word::Ns => ns(s, table, associations, here, form, row),
        Word::Define => define(s, table, associations, here, form),
        Word::Subst => Err(Reason::NoValue),
        Word::Concat => concat(s, table, form),
        Word::Arg => arguments(args, here.frame, number(s, table, form)?, false),
        Word::Rest => arguments(args, here.frame, number(s, table, form)?, true),
        Word::Plain => {
            if form.is_named(table) {
                let mark = table::mark(table, form.first);
                if mark != 0 {
                    return bytecode(table, form, mark);
                }
                return named(s, table, definitions, here, form);
            }
            unnamed(s, table, here, form)
        }
    }
}

// The rule for the result of a flat list.
pub fn result(
    s: &[u8],
    table: &[u32],
    definitions: &[u64; 256],
    here: Here,
    flat: Form,
) -> Result<Task, Reason>
    requires by_index { (associations : List ℕ) × (args : List ℕ) × (place : ℕ) × Planning s.now table.now args (view associations definitions.now here.scope) here place }
    requires flat_value { (flat.flat ≡ true) × ((place : ℕ) × (e : Expression) × ResultAt s.now table.now place flat e) }
    ensures { (associations args : List ℕ) (place : ℕ) (e : Expression) → ResultAt s.now table.now place flat e
        → Answers s.now table.now args (view associations definitions.now here.scope) here flat.first e (plan e) result }
{
    match flat.result(table) {
        Node::Leaf => leaf(s, table, definitions, here, flat.first),
        Node::Branch(form) => {
            if form.is_named(table) {
                return named(s, table, definitions, here, form);
            }
            unnamed(s, table, here, form)
        }
    }
}

// The rule for an expression.
pub fn plan(
    s: &[u8],
    table: &[u32],
    associations: &[u64; 64],
    args: &[u32; 64],
    definitions: &[u64; 256],
    here: Here,
    node: Node,
    place: usize,
) -> Result<Task, Reason>
    requires { Planning s.now table.now args.now (view associations.now definitions.now here.scope) here place × ((e : Expression) × IsElement s.now table.now place node e) }
    ensures { (e : Expression) → IsElement s.now table.now place node e → AnswersElement s.now table.now args.now (view associations.now definitions.now here.scope) here e result }
{
    match node {
        Node::Leaf => leaf(s, table, definitions, here, place),
        Node::Branch(form) => branch(s, table, associations, args, definitions, here, form, place),
    }
}
