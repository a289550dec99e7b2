// What the rules of one and two operands do beside visiting these (typecheck/lib.rs: Node::Bin, Unary, Let, Field, Cast).
// The buffers are lent in one order: slots, types (with the texts), diagnostics, messages, scratch; then the node.
#![tactic(auto)]

ghost use Rattle.std.specs.Prelude.{◌≡◌, List, ℕ, ◌+◌};
ghost use Rattle.tok.specs.Text.{Texts};
ghost use Rattle.library.specs.Package.{Package};
ghost use Rattle.ast.specs.Image.{word_at};
ghost use Rattle.type_expr.specs.Ready.{TypeReady};
ghost use Rattle.state.specs.Context.{ctx};
ghost use Rattle.state.specs.World.{More};
ghost use Rattle.visit.specs.Whole.{Lent, lent};
ghost use Rattle.visit.specs.Within.{Visits};
ghost use Rattle.operands.specs.Ends.{operand_at, bin_end, one_end, one_room, cast_type, cast_end};
ghost use Rattle.operands.specs.Ready.{OneReady};

use ast::NodeKind;
use places::NodeAt;
use ptype::Types;
use rules::Answer;
use visit::{State, Visit};

// The number of the operand of a Unary, a Let or a Field.
#[tactic(auto, unfolding(crate::specs::Ends::operand_at, crate::specs::Ends::by_kind))]
pub fn operand_of(node: &NodeAt) -> u32
    ensures { result ≡ operand_at node.now.image.now.words node.now.at }
{
    match node.kind() {
        NodeKind::Unary => node.word(4),
        NodeKind::Let => node.word(3),
        _ => node.word(2),
    }
}

// Node::Bin after its operands: "a Known answer yields its slot, otherwise Poison ends the rule".
pub fn bin_end(
    slots: &mut [u32],
    types: &Types,
    diagnostics: &mut [u32],
    messages: &mut [u8],
    node: &NodeAt,
    st: State,
    left: Answer,
    right: Answer,
) -> Visit<Answer>
    ensures { ((ls : List Package) (v : ℕ) (words f e : List ℕ) (o : More) →
        let b : Lent = lent slots.old f types.now.words.now diagnostics.old messages.old e o in
        let b' : Lent = lent slots.new f types.now.words.now diagnostics.new messages.new e o in
        Visits (bin_end (ctx types.now.texts.now ls v) node.now.image.now.words node.now.n node.now.at left right) 0 0 words st b b' result) }
{
    let Answer::Known(left_slot) = left else {
        return Ok((Answer::Poison, st));
    };
    let Answer::Known(right_slot) = right else {
        return Ok((Answer::Poison, st));
    };
    let used = st.used;
    let slot = node.word(1);
    let token = node.word(2);
    let op = node.word(3);
    visit::answered(
        st,
        operators::fuse(
            slots,
            types,
            diagnostics,
            messages,
            used,
            node.n,
            slot,
            token,
            op,
            left_slot,
            right_slot,
        ),
    )
}

// Node::Unary, Node::Let and Node::Field after their operand.
pub fn one_end(
    slots: &mut [u32],
    types: &Types,
    diagnostics: &mut [u32],
    messages: &mut [u8],
    scratch: &mut [u32],
    node: &NodeAt,
    st: State,
    answer: Answer,
) -> Visit<Answer>
    requires { OneReady node.now.image.now.words node.now.at st scratch.old }
    ensures { ((ls : List Package) (v : ℕ) (words f : List ℕ) (o : More) →
        let b : Lent = lent slots.old f types.now.words.now diagnostics.old messages.old scratch.old o in
        let b' : Lent = lent slots.new f types.now.words.now diagnostics.new messages.new scratch.new o in
        Visits (one_end (ctx types.now.texts.now ls v) node.now.image.now.words node.now.n node.now.at answer) (one_room node.now.image.now.words node.now.at) 0 words st b b' result) }
{
    let slot = node.word(1);
    let second = node.word(2);
    let third = node.word(3);
    let used = st.used;
    match node.kind() {
        NodeKind::Let => names::let_end(
            slots,
            diagnostics,
            messages,
            scratch,
            st,
            node.n,
            slot,
            second,
            answer,
        ),
        NodeKind::Unary => {
            let Answer::Known(operand) = answer else {
                return Ok((Answer::Poison, st));
            };
            visit::answered(
                st,
                operators::unary(
                    slots,
                    types,
                    diagnostics,
                    messages,
                    used,
                    node.n,
                    slot,
                    second,
                    third,
                    operand,
                ),
            )
        }
        _ => {
            let Answer::Known(operand) = answer else {
                return Ok((Answer::Poison, st));
            };
            visit::answered(
                st,
                values::field(
                    slots,
                    types,
                    diagnostics,
                    messages,
                    used,
                    node.n,
                    slot,
                    third,
                    operand,
                ),
            )
        }
    }
}

// Node::Cast before its operand: the type that it casts to. Gives its word.
pub fn cast_begin(types: &mut [u32], node: &NodeAt, st: State) -> Visit<u32>
    requires { TypeReady node.now.image.now.words node.now.image.now.places (word_at node.now.image.now.words (node.now.at + 4)) }
    ensures { ((T : Texts) (ls : List Package) (v : ℕ) (words s f d m e : List ℕ) (o : More) →
        let b : Lent = lent s f types.old d m e o in
        let b' : Lent = lent s f types.new d m e o in
        Visits (cast_type (ctx T ls v) node.now.image.now.words node.now.n node.now.at) 0 0 words st b b' result) }
{
    let used = st.used;
    let expr = node.word(4);
    let added = type_expr::type_from_type_expr(types, used.types, node.image, expr);
    visit::answered(st, state::added(node.n, used, added))
}

// Node::Cast after its operand.
pub fn cast_end(
    slots: &mut [u32],
    types: &Types,
    diagnostics: &mut [u32],
    messages: &mut [u8],
    node: &NodeAt,
    st: State,
    to: u32,
    answer: Answer,
) -> Visit<Answer>
    ensures { ((ls : List Package) (v : ℕ) (words f e : List ℕ) (o : More) →
        let b : Lent = lent slots.old f types.now.words.now diagnostics.old messages.old e o in
        let b' : Lent = lent slots.new f types.now.words.now diagnostics.new messages.new e o in
        Visits (cast_end (ctx types.now.texts.now ls v) node.now.image.now.words node.now.n node.now.at to answer) 0 0 words st b b' result) }
{
    let Answer::Known(value) = answer else {
        return Ok((Answer::Poison, st));
    };
    let used = st.used;
    let slot = node.word(1);
    let token = node.word(2);
    visit::answered(
        st,
        operators::cast(
            slots,
            types,
            diagnostics,
            messages,
            used,
            node.n,
            slot,
            token,
            value,
            to,
        ),
    )
}
