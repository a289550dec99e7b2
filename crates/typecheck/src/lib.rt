// The walk (typecheck/lib.rs, `Typechecker::node`): the functions that visit. They call each other, and the node number falls: "A part's
// number is smaller than its owner's". Each visits and hands over; what a rule does beside visiting is in the crates below.
// The buffers are lent in one order: slots, functions, types, diagnostics, messages, scratch; then what the walk reads, and the state.
#![tactic(auto)]

ghost use Rattle.state.specs.World.{no_more};
ghost use Rattle.visit.specs.Whole.{Lent, lent};
ghost use Rattle.ready.specs.Ready.{NodeVisit};
ghost use Rattle.walking.specs.Kinds.{OneOperand, Is};
ghost use Rattle.walking.specs.Visited.{ClassVisit, ListVisit, CaseVisit, NodeVisited, ListVisited, CaseVisited};

use ast::NodeKind;
use ptype::Types;
use rules::Answer;
use visit::{Sources, State, Visit};

// Typechecker::node: a node, by its kind.
#[cycle(array_bin_block_call_case_cases_cast_func_node_one_part_record_node)]
pub fn node(
    slots: &mut [u32],
    functions: &mut [u32],
    types: &mut [u32],
    diagnostics: &mut [u32],
    messages: &mut [u8],
    scratch: &mut [u32],
    sources: &Sources,
    st: State,
    n: u32,
) -> Visit<Answer>
    requires { let b : Lent = lent slots.old functions.old types.old diagnostics.old messages.old scratch.old no_more in
        NodeVisit sources.now.texts.now sources.now.image.now.words sources.now.image.now.places sources.now.library.now n st b }
    ensures { let b : Lent = lent slots.old functions.old types.old diagnostics.old messages.old scratch.old no_more in
        let b' : Lent = lent slots.new functions.new types.new diagnostics.new messages.new scratch.new no_more in
        NodeVisited sources.now.texts.now sources.now.image.now.words sources.now.library.now n st b b' result }
{
    match sources.image.node(n).kind() {
        NodeKind::Atom | NodeKind::Ident | NodeKind::Import | NodeKind::Extern => leaves::leaf(
            slots,
            types,
            diagnostics,
            messages,
            scratch,
            sources,
            st,
            n,
        ),
        NodeKind::Bin => bin(
            slots,
            functions,
            types,
            diagnostics,
            messages,
            scratch,
            sources,
            st,
            n,
        ),
        NodeKind::Cast => cast(
            slots,
            functions,
            types,
            diagnostics,
            messages,
            scratch,
            sources,
            st,
            n,
        ),
        NodeKind::Unary | NodeKind::Let | NodeKind::Field => one(
            slots,
            functions,
            types,
            diagnostics,
            messages,
            scratch,
            sources,
            st,
            n,
        ),
        NodeKind::Fn => func(
            slots,
            functions,
            types,
            diagnostics,
            messages,
            scratch,
            sources,
            st,
            n,
        ),
        NodeKind::Match => cases(
            slots,
            functions,
            types,
            diagnostics,
            messages,
            scratch,
            sources,
            st,
            n,
        ),
        NodeKind::Call => call(
            slots,
            functions,
            types,
            diagnostics,
            messages,
            scratch,
            sources,
            st,
            n,
        ),
        NodeKind::Record => record_node(
            slots,
            functions,
            types,
            diagnostics,
            messages,
            scratch,
            sources,
            st,
            n,
        ),
        NodeKind::Array => array(
            slots,
            functions,
            types,
            diagnostics,
            messages,
            scratch,
            sources,
            st,
            n,
        ),
        NodeKind::None => unreachable!(),
    }
}

// A part of a node: `node` of it. It only hands over. The compiler puts it into each rule in place of its calls, and what several visits in one
// rule copy of the lent slices then shares its room in the rule's frame (docs/PERFORMANCE.md, "Stack").
#[cycle(array_bin_block_call_case_cases_cast_func_node_one_part_record_node)]
fn part(
    slots: &mut [u32],
    functions: &mut [u32],
    types: &mut [u32],
    diagnostics: &mut [u32],
    messages: &mut [u8],
    scratch: &mut [u32],
    sources: &Sources,
    st: State,
    n: u32,
) -> Visit<Answer>
    requires { let b : Lent = lent slots.old functions.old types.old diagnostics.old messages.old scratch.old no_more in
        NodeVisit sources.now.texts.now sources.now.image.now.words sources.now.image.now.places sources.now.library.now n st b }
    ensures { let b : Lent = lent slots.old functions.old types.old diagnostics.old messages.old scratch.old no_more in
        let b' : Lent = lent slots.new functions.new types.new diagnostics.new messages.new scratch.new no_more in
        NodeVisited sources.now.texts.now sources.now.image.now.words sources.now.library.now n st b b' result }
{
    node(
        slots,
        functions,
        types,
        diagnostics,
        messages,
        scratch,
        sources,
        st,
        n,
    )
}

// Node::Bin: both sides are visited, whatever the left answers.
#[cycle(array_bin_block_call_case_cases_cast_func_node_one_part_record_node)]
fn bin(
    slots: &mut [u32],
    functions: &mut [u32],
    types: &mut [u32],
    diagnostics: &mut [u32],
    messages: &mut [u8],
    scratch: &mut [u32],
    sources: &Sources,
    st: State,
    n: u32,
) -> Visit<Answer>
    requires { let b : Lent = lent slots.old functions.old types.old diagnostics.old messages.old scratch.old no_more in
        ClassVisit (Is 2) sources.now.texts.now sources.now.image.now.words sources.now.image.now.places sources.now.library.now n st b }
    ensures { let b : Lent = lent slots.old functions.old types.old diagnostics.old messages.old scratch.old no_more in
        let b' : Lent = lent slots.new functions.new types.new diagnostics.new messages.new scratch.new no_more in
        NodeVisited sources.now.texts.now sources.now.image.now.words sources.now.library.now n st b b' result }
{
    let node = sources.image.node(n);
    let (l, between) = part(
        slots,
        functions,
        types,
        diagnostics,
        messages,
        scratch,
        sources,
        st,
        node.word(4),
    )?;
    let (r, end) = part(
        slots,
        functions,
        types,
        diagnostics,
        messages,
        scratch,
        sources,
        between,
        node.word(5),
    )?;
    operands::bin_end(
        slots,
        &Types {
            words: &types[..],
            texts: sources.texts,
        },
        diagnostics,
        messages,
        &node,
        end,
        l,
        r,
    )
}

// Node::Unary, Node::Let and Node::Field.
#[cycle(array_bin_block_call_case_cases_cast_func_node_one_part_record_node)]
fn one(
    slots: &mut [u32],
    functions: &mut [u32],
    types: &mut [u32],
    diagnostics: &mut [u32],
    messages: &mut [u8],
    scratch: &mut [u32],
    sources: &Sources,
    st: State,
    n: u32,
) -> Visit<Answer>
    requires { let b : Lent = lent slots.old functions.old types.old diagnostics.old messages.old scratch.old no_more in
        ClassVisit OneOperand sources.now.texts.now sources.now.image.now.words sources.now.image.now.places sources.now.library.now n st b }
    ensures { let b : Lent = lent slots.old functions.old types.old diagnostics.old messages.old scratch.old no_more in
        let b' : Lent = lent slots.new functions.new types.new diagnostics.new messages.new scratch.new no_more in
        NodeVisited sources.now.texts.now sources.now.image.now.words sources.now.library.now n st b b' result }
{
    let node = sources.image.node(n);
    let value = operands::operand_of(&node);
    let (a, end) = part(
        slots,
        functions,
        types,
        diagnostics,
        messages,
        scratch,
        sources,
        st,
        value,
    )?;
    operands::one_end(
        slots,
        &Types {
            words: &types[..],
            texts: sources.texts,
        },
        diagnostics,
        messages,
        scratch,
        &node,
        end,
        a,
    )
}

// Node::Cast: the type is made before the value is visited.
#[cycle(array_bin_block_call_case_cases_cast_func_node_one_part_record_node)]
fn cast(
    slots: &mut [u32],
    functions: &mut [u32],
    types: &mut [u32],
    diagnostics: &mut [u32],
    messages: &mut [u8],
    scratch: &mut [u32],
    sources: &Sources,
    st: State,
    n: u32,
) -> Visit<Answer>
    requires { let b : Lent = lent slots.old functions.old types.old diagnostics.old messages.old scratch.old no_more in
        ClassVisit (Is 9) sources.now.texts.now sources.now.image.now.words sources.now.image.now.places sources.now.library.now n st b }
    ensures { let b : Lent = lent slots.old functions.old types.old diagnostics.old messages.old scratch.old no_more in
        let b' : Lent = lent slots.new functions.new types.new diagnostics.new messages.new scratch.new no_more in
        NodeVisited sources.now.texts.now sources.now.image.now.words sources.now.library.now n st b b' result }
{
    let node = sources.image.node(n);
    let (to, begun) = operands::cast_begin(types, &node, st)?;
    let (a, end) = part(
        slots,
        functions,
        types,
        diagnostics,
        messages,
        scratch,
        sources,
        begun,
        node.word(3),
    )?;
    operands::cast_end(
        slots,
        &Types {
            words: &types[..],
            texts: sources.texts,
        },
        diagnostics,
        messages,
        &node,
        end,
        to,
        a,
    )
}

// The roots, one after the other. As `block`, but a function of its own: the compiler puts `block` in place of its one call, and it takes no
// frame.
pub fn nodes(
    slots: &mut [u32],
    functions: &mut [u32],
    types: &mut [u32],
    diagnostics: &mut [u32],
    messages: &mut [u8],
    scratch: &mut [u32],
    sources: &Sources,
    st: State,
    owner: u32,
    at: usize,
    k: usize,
) -> Visit<Answer>
    requires { let b : Lent = lent slots.old functions.old types.old diagnostics.old messages.old scratch.old no_more in
        ListVisit sources.now.texts.now sources.now.image.now.words sources.now.image.now.places sources.now.library.now owner at k st b }
    ensures { let b : Lent = lent slots.old functions.old types.old diagnostics.old messages.old scratch.old no_more in
        let b' : Lent = lent slots.new functions.new types.new diagnostics.new messages.new scratch.new no_more in
        ListVisited sources.now.texts.now sources.now.image.now.words sources.now.library.now at k st b b' result }
{
    let mut answer = Answer::Known(sources.image.slot_count());
    let mut here = st;
    for place in at..at + k {
        let (a, next) = node(
            slots,
            functions,
            types,
            diagnostics,
            messages,
            scratch,
            sources,
            here,
            sources.image.word_at(place),
        )?;
        answer = a;
        here = next;
    }
    Ok((answer, here))
}

// Typechecker::block_type: parts of the node `owner`, one after the other; the last one's answer, or slot V where there is none.
#[cycle(array_bin_block_call_case_cases_cast_func_node_one_part_record_node)]
fn block(
    slots: &mut [u32],
    functions: &mut [u32],
    types: &mut [u32],
    diagnostics: &mut [u32],
    messages: &mut [u8],
    scratch: &mut [u32],
    sources: &Sources,
    st: State,
    owner: u32,
    at: usize,
    k: usize,
) -> Visit<Answer>
    requires { let b : Lent = lent slots.old functions.old types.old diagnostics.old messages.old scratch.old no_more in
        ListVisit sources.now.texts.now sources.now.image.now.words sources.now.image.now.places sources.now.library.now owner at k st b }
    ensures { let b : Lent = lent slots.old functions.old types.old diagnostics.old messages.old scratch.old no_more in
        let b' : Lent = lent slots.new functions.new types.new diagnostics.new messages.new scratch.new no_more in
        ListVisited sources.now.texts.now sources.now.image.now.words sources.now.library.now at k st b b' result }
{
    let mut answer = Answer::Known(sources.image.slot_count());
    let mut here = st;
    for place in at..at + k {
        let (a, next) = part(
            slots,
            functions,
            types,
            diagnostics,
            messages,
            scratch,
            sources,
            here,
            sources.image.word_at(place),
        )?;
        answer = a;
        here = next;
    }
    Ok((answer, here))
}

// Node::Fn.
#[cycle(array_bin_block_call_case_cases_cast_func_node_one_part_record_node)]
fn func(
    slots: &mut [u32],
    functions: &mut [u32],
    types: &mut [u32],
    diagnostics: &mut [u32],
    messages: &mut [u8],
    scratch: &mut [u32],
    sources: &Sources,
    st: State,
    n: u32,
) -> Visit<Answer>
    requires { let b : Lent = lent slots.old functions.old types.old diagnostics.old messages.old scratch.old no_more in
        ClassVisit (Is 5) sources.now.texts.now sources.now.image.now.words sources.now.image.now.places sources.now.library.now n st b }
    ensures { let b : Lent = lent slots.old functions.old types.old diagnostics.old messages.old scratch.old no_more in
        let b' : Lent = lent slots.new functions.new types.new diagnostics.new messages.new scratch.new no_more in
        NodeVisited sources.now.texts.now sources.now.image.now.words sources.now.library.now n st b b' result }
{
    let node = sources.image.node(n);
    let count = node.word(4) as usize;
    let (begun, inner) = bodies::begin(
        slots,
        functions,
        types,
        diagnostics,
        messages,
        scratch,
        sources.texts,
        &node,
        st,
    )?;
    let Some(ret) = begun else {
        return Ok((Answer::Poison, inner));
    };
    let long = node.length();
    let (computed, inside) = block(
        slots,
        functions,
        types,
        diagnostics,
        messages,
        scratch,
        sources,
        inner,
        n,
        node.at + 5 + 2 * count,
        long - (5 + 2 * count),
    )?;
    bodies::end(
        slots,
        &Types {
            words: &types[..],
            texts: sources.texts,
        },
        diagnostics,
        messages,
        &node,
        inside,
        st,
        ret,
        computed,
    )
}

// A case of a Match, which stands at a word of the image: its condition, then its body.
#[cycle(array_bin_block_call_case_cases_cast_func_node_one_part_record_node)]
fn case(
    slots: &mut [u32],
    functions: &mut [u32],
    types: &mut [u32],
    diagnostics: &mut [u32],
    messages: &mut [u8],
    scratch: &mut [u32],
    sources: &Sources,
    st: State,
    n: u32,
    at: usize,
) -> Visit<Answer>
    requires { let b : Lent = lent slots.old functions.old types.old diagnostics.old messages.old scratch.old no_more in
        CaseVisit sources.now.texts.now sources.now.image.now.words sources.now.image.now.places sources.now.library.now n at st b }
    ensures { let b : Lent = lent slots.old functions.old types.old diagnostics.old messages.old scratch.old no_more in
        let b' : Lent = lent slots.new functions.new types.new diagnostics.new messages.new scratch.new no_more in
        CaseVisited sources.now.texts.now sources.now.image.now.words sources.now.library.now n at st b b' result }
{
    let (a, tested) = part(
        slots,
        functions,
        types,
        diagnostics,
        messages,
        scratch,
        sources,
        st,
        sources.image.word_after(at, 1),
    )?;
    let (_, begun) = branches::condition(
        &slots[..],
        &Types {
            words: &types[..],
            texts: sources.texts,
        },
        diagnostics,
        messages,
        sources.image,
        at,
        tested,
        n,
        a,
    )?;
    let mut answer = Answer::Known(sources.image.slot_count());
    let mut here = begun;
    let left = sources.image.word_after(at, 2) as usize;
    for place in at + 3..at + 3 + left {
        let (a, next) = part(
            slots,
            functions,
            types,
            diagnostics,
            messages,
            scratch,
            sources,
            here,
            sources.image.word_at(place),
        )?;
        answer = a;
        here = next;
    }
    Ok((answer, visiting::left(here, begun)))
}

// Node::Match: each case, then the default's body; then the cases are compared with it.
#[cycle(array_bin_block_call_case_cases_cast_func_node_one_part_record_node)]
fn cases(
    slots: &mut [u32],
    functions: &mut [u32],
    types: &mut [u32],
    diagnostics: &mut [u32],
    messages: &mut [u8],
    scratch: &mut [u32],
    sources: &Sources,
    st: State,
    n: u32,
) -> Visit<Answer>
    requires { let b : Lent = lent slots.old functions.old types.old diagnostics.old messages.old scratch.old no_more in
        ClassVisit (Is 6) sources.now.texts.now sources.now.image.now.words sources.now.image.now.places sources.now.library.now n st b }
    ensures { let b : Lent = lent slots.old functions.old types.old diagnostics.old messages.old scratch.old no_more in
        let b' : Lent = lent slots.new functions.new types.new diagnostics.new messages.new scratch.new no_more in
        NodeVisited sources.now.texts.now sources.now.image.now.words sources.now.library.now n st b b' result }
{
    let node = sources.image.node(n);
    let count = node.word(2) as usize;
    let mut here = st;
    let mut place = node.at + 3;
    for _ in 0..count {
        let (_, next) = case(
            slots,
            functions,
            types,
            diagnostics,
            messages,
            scratch,
            sources,
            here,
            n,
            place,
        )?;
        here = next;
        place = branches::case_end(sources.image, place);
    }
    let next = place + 1;
    let left = node.at + node.length() - next;
    let mut default = Answer::Known(sources.image.slot_count());
    let mut end = here;
    for i in 0..left {
        let (a, on) = part(
            slots,
            functions,
            types,
            diagnostics,
            messages,
            scratch,
            sources,
            end,
            sources.image.word_after(next, i),
        )?;
        default = a;
        end = on;
    }
    branches::end(
        slots,
        &Types {
            words: &types[..],
            texts: sources.texts,
        },
        diagnostics,
        messages,
        &node,
        visiting::left(end, here),
        default,
    )
}

// Node::Call: every argument is visited before the function is looked up. A call through a field visits none.
#[cycle(array_bin_block_call_case_cases_cast_func_node_one_part_record_node)]
fn call(
    slots: &mut [u32],
    functions: &mut [u32],
    types: &mut [u32],
    diagnostics: &mut [u32],
    messages: &mut [u8],
    scratch: &mut [u32],
    sources: &Sources,
    st: State,
    n: u32,
) -> Visit<Answer>
    requires { let b : Lent = lent slots.old functions.old types.old diagnostics.old messages.old scratch.old no_more in
        ClassVisit (Is 7) sources.now.texts.now sources.now.image.now.words sources.now.image.now.places sources.now.library.now n st b }
    ensures { let b : Lent = lent slots.old functions.old types.old diagnostics.old messages.old scratch.old no_more in
        let b' : Lent = lent slots.new functions.new types.new diagnostics.new messages.new scratch.new no_more in
        NodeVisited sources.now.texts.now sources.now.image.now.words sources.now.library.now n st b b' result }
{
    let node = sources.image.node(n);
    if calls::through_field(&node) {
        return calls::report_field(diagnostics, messages, &node, st);
    }
    let count = node.length() - 3;
    let mut poisoned = false;
    let mut here = st;
    for i in 0..count {
        let (a, next) = part(
            slots,
            functions,
            types,
            diagnostics,
            messages,
            scratch,
            sources,
            here,
            sources.image.word_after(node.at + 3, i),
        )?;
        poisoned = calls::or_poison(poisoned, a);
        here = next;
    }
    calls::resolve(
        slots,
        &functions[..],
        types,
        diagnostics,
        messages,
        scratch,
        sources,
        here,
        n,
        count,
        poisoned,
    )
}

// Node::Record.
#[cycle(array_bin_block_call_case_cases_cast_func_node_one_part_record_node)]
fn record_node(
    slots: &mut [u32],
    functions: &mut [u32],
    types: &mut [u32],
    diagnostics: &mut [u32],
    messages: &mut [u8],
    scratch: &mut [u32],
    sources: &Sources,
    st: State,
    n: u32,
) -> Visit<Answer>
    requires { let b : Lent = lent slots.old functions.old types.old diagnostics.old messages.old scratch.old no_more in
        ClassVisit (Is 12) sources.now.texts.now sources.now.image.now.words sources.now.image.now.places sources.now.library.now n st b }
    ensures { let b : Lent = lent slots.old functions.old types.old diagnostics.old messages.old scratch.old no_more in
        let b' : Lent = lent slots.new functions.new types.new diagnostics.new messages.new scratch.new no_more in
        NodeVisited sources.now.texts.now sources.now.image.now.words sources.now.library.now n st b b' result }
{
    let node = sources.image.node(n);
    let count = (node.length() - 3) / 2;
    let mut here = st;
    for i in 0..count {
        let (_, next) = part(
            slots,
            functions,
            types,
            diagnostics,
            messages,
            scratch,
            sources,
            here,
            sources.image.word_after(node.at + 4, 2 * i),
        )?;
        here = next;
    }
    fields::make(slots, types, &node, count, here)
}

// Node::Array: the members are compared with the first, each when it is visited; one that differs ends the visits.
#[cycle(array_bin_block_call_case_cases_cast_func_node_one_part_record_node)]
fn array(
    slots: &mut [u32],
    functions: &mut [u32],
    types: &mut [u32],
    diagnostics: &mut [u32],
    messages: &mut [u8],
    scratch: &mut [u32],
    sources: &Sources,
    st: State,
    n: u32,
) -> Visit<Answer>
    requires { let b : Lent = lent slots.old functions.old types.old diagnostics.old messages.old scratch.old no_more in
        ClassVisit (Is 13) sources.now.texts.now sources.now.image.now.words sources.now.image.now.places sources.now.library.now n st b }
    ensures { let b : Lent = lent slots.old functions.old types.old diagnostics.old messages.old scratch.old no_more in
        let b' : Lent = lent slots.new functions.new types.new diagnostics.new messages.new scratch.new no_more in
        NodeVisited sources.now.texts.now sources.now.image.now.words sources.now.library.now n st b b' result }
{
    let node = sources.image.node(n);
    let count = node.length() - 3;
    if count == 0 {
        return members::empty(diagnostics, messages, &node, st);
    }
    let (first, begun) = part(
        slots,
        functions,
        types,
        diagnostics,
        messages,
        scratch,
        sources,
        st,
        node.word(3),
    )?;
    let mut poisoned = false;
    let mut here = begun;
    for i in 1..count {
        let member = sources.image.word_after(node.at + 3, i);
        let (a, next) = part(
            slots,
            functions,
            types,
            diagnostics,
            messages,
            scratch,
            sources,
            here,
            member,
        )?;
        let (turn, on) = members::member(
            &slots[..],
            &Types {
                words: &types[..],
                texts: sources.texts,
            },
            diagnostics,
            messages,
            &node,
            next,
            member,
            first,
            a,
            poisoned,
        )?;
        let Some(p) = turn else {
            return Ok((Answer::Poison, on));
        };
        poisoned = p;
        here = on;
    }
    members::end(slots, types, &node, here, first, poisoned)
}
