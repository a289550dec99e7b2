// Reading an image: counts, roots, node records, type records, nothing after (document 01, "Words"; refusal 3).
#![tactic(auto)]

ghost use Rattle.std.specs.Prelude.{◌≡◌, ◌&&◌, ◌||◌, List, [], ℕ, ◌%◌, ◌≤◌, length, leb, eqb};
ghost use Rattle.tok.specs.Text.{texts_of};
ghost use Rattle.tok.specs.Word.{kind_of};
ghost use Rattle.reader.specs.Reading.{next_word, onward, gave, offending};
ghost use Rattle.ast.specs.Nodes.{nodes};
ghost use Rattle.ast.specs.TypeRecords.{type_atom, type_foreign, type_inner, type_record, type_kind, good_type_head, type_expression, type_expressions};
ghost use Rattle.ast.specs.ImageFault.{image, image_fault};
ghost use Rattle.image_words.specs.Leads.{unanswered, Leads};
ghost use Rattle.image_nodes.specs.Site.{counts_of};
ghost use Rattle.image.specs.Counted.{LeadsFor};

use ast::{ExprKind, MOST_NODES, MOST_ROOTS, MOST_SLOTS, MOST_TYPES, NodeKind};
use image_nodes::Counts;
use image_words::{and_pairs, between, numbers, pairs, token};
use reader::{Fault, Reader};

// Type records: the words after the first, by kind.

// 0 Atom: token, kind 1 to 5.
#[tactic(auto, unfolding(ast::specs::TypeRecords::type_atom, reader::specs::Reading::gave, image_words::specs::Leads::unanswered), using(image_words::specs::LeadLaws::leads))]
fn type_atom<'a>(script: &[u8], from: Reader<'a>) -> Result<Reader<'a>, Fault>
    ensures { (number left : ℕ) → LeadsFor from.entry script.now (λ c. type_atom c number left) result }
{
    let at = token(script, from)?;
    let kind = at.next_word() as usize;
    at.word(between(1, 5, kind))
}

// 1 Foreign: token.
#[tactic(auto, unfolding(ast::specs::TypeRecords::type_foreign, reader::specs::Reading::gave, image_words::specs::Leads::unanswered), using(image_words::specs::LeadLaws::leads))]
fn type_foreign<'a>(script: &[u8], from: Reader<'a>) -> Result<Reader<'a>, Fault>
    ensures { (number left : ℕ) → LeadsFor from.entry script.now (λ c. type_foreign c number left) result }
{
    token(script, from)
}

// 2 Option, 3 Array: inner.
#[tactic(auto, unfolding(ast::specs::TypeRecords::type_inner, reader::specs::Reading::gave, image_words::specs::Leads::unanswered), using(image_words::specs::LeadLaws::leads))]
fn type_inner(from: Reader, number: usize) -> Result<Reader, Fault>
    ensures { (text : List ℕ) (left : ℕ) → LeadsFor from.entry text (λ c. type_inner c number left) result }
{
    from.below(number)
}

// 4 Record: token, pairs.
#[tactic(auto, unfolding(ast::specs::TypeRecords::type_record, ast::specs::TypeRecords::type_field, reader::specs::Reading::gave, image_words::specs::Leads::unanswered), using(image_words::specs::LeadLaws::leads))]
fn type_record<'a>(
    script: &[u8],
    from: Reader<'a>,
    number: usize,
    left: usize,
) -> Result<Reader<'a>, Fault>
    ensures { LeadsFor from.entry script.now (λ c. type_record c number left) result }
{
    let at = token(script, from)?;
    pairs(script, at, left.saturating_sub(1) / 2, number)
}

// Whether a record's first word has a kind of type, and a length that the kind may have.
fn good_type_head(head: u32) -> bool
    ensures { result ≡ good_type_head head }
{
    let long = tok::payload(head);
    match ExprKind::of(head) {
        ExprKind::Atom => long == 3,
        ExprKind::Foreign | ExprKind::Option | ExprKind::Array => long == 2,
        ExprKind::Record => and_pairs(2, long),
        ExprKind::None => false,
    }
}

// The words after the first, by its kind.
fn type_rest<'a>(
    script: &[u8],
    from: Reader<'a>,
    head: u32,
    number: usize,
    left: usize,
) -> Result<Reader<'a>, Fault>
    ensures { LeadsFor from.entry script.now (λ c. (type_kind head).rest c number left) result }
{
    match ExprKind::of(head) {
        ExprKind::Atom => type_atom(script, from),
        ExprKind::Foreign => type_foreign(script, from),
        ExprKind::Option | ExprKind::Array => type_inner(from, number),
        ExprKind::Record => type_record(script, from, number, left),
        ExprKind::None => Ok(from),
    }
}

// The record of a type: its first word, and the rest by kind.
#[tactic(auto, unfolding(ast::specs::TypeRecords::type_expression, reader::specs::Reading::gave, image_words::specs::Leads::unanswered), using(image_words::specs::LeadLaws::leads))]
fn type_expression<'a>(script: &[u8], from: Reader<'a>, number: usize) -> Result<Reader<'a>, Fault>
    ensures { LeadsFor from.entry script.now (λ c. type_expression c number) result }
{
    let head = from.next_word();
    let long = tok::payload(head);
    let at = from.owing(good_type_head(head), long.saturating_sub(2))?;
    type_rest(script, at, head, number, long.saturating_sub(1))
}

// All `count` type records.
fn type_expressions<'a>(script: &[u8], from: Reader<'a>, count: usize) -> Result<Reader<'a>, Fault>
    ensures { LeadsFor from.entry script.now (λ c. type_expressions c count 0) result }
{
    from.many(count, |to, i| type_expression(script, to, i))
}

// Nodes.

// Whether the record before which a reading stands is of a node that may be called: an Ident or a Field.
#[tactic(auto, using(crate::proofs::Callable::may_call, crate::proofs::Callable::may_not))]
fn callable_there(from: &Reader) -> bool
    ensures { let k : ℕ = kind_of (next_word from.now) in result ≡ (eqb k 1 || eqb k 8) }
{
    matches!(
        NodeKind::of(from.next_word()),
        NodeKind::Ident | NodeKind::Field
    )
}

// All node records. Which of those before may be called is kept in `callable`, for a call's target.
fn nodes_by<'a>(
    callable: &mut [bool],
    from: Reader<'a>,
    counts: Counts,
) -> Result<Reader<'a>, Fault>
    requires { counts.nodes ≤ length callable.old }
    ensures { Leads from.entry (nodes (counts_of counts.entry) counts.entry.nodes 0 []) result }
{
    let mut to = from;
    for i in 0..counts.nodes {
        let called = callable_there(&to);
        to = image_nodes::node(callable, to, counts, i)?;
        callable[i] = called;
    }
    Ok(to)
}

// The whole image.

// Counts, roots, nodes, types, the end. Which nodes may be called stands in this frame, which lies in its caller's: what the caller has for
// another refusal then is not there beside them (docs/PERFORMANCE.md, "Stack").
#[tactic(auto, unfolding(ast::specs::ImageFault::image, reader::specs::Reading::gave, image_words::specs::Leads::unanswered), using(image_words::specs::LeadLaws::leads))]
fn whole<'a>(script: &[u8], from: Reader<'a>) -> Result<Reader<'a>, Fault>
    ensures { (library : List ℕ) → unanswered (onward from.entry (image (texts_of script.now library))) ≡ gave tt result }
{
    let n = from.next_word() as usize;
    let at = from.owing(n <= MOST_NODES, 3 * n)?;
    let t = at.next_word() as usize;
    let at = at.owing(t <= MOST_TYPES, 2 * t)?;
    let r = at.next_word() as usize;
    let at = at.owing(r <= MOST_ROOTS, r)?;
    let v = at.next_word() as usize;
    let at = at.word(v <= MOST_SLOTS)?;
    let at = numbers(at, r, n)?;
    let counts = Counts {
        text: script,
        nodes: n,
        types: t,
        slots: v,
    };
    let mut callable = [false; MOST_NODES];
    let at = nodes_by(&mut callable, at, counts)?;
    let at = type_expressions(script, at, t)?;
    at.ends()
}

// Whether an image is accepted; if not, the first offending word, or its length.
#[tactic(auto, using(crate::proofs::Limits::long_fault, crate::proofs::Limits::read_fault))]
pub fn read(script: &[u8], words: &[u32]) -> Result<(), Fault>
    ensures { (library : List ℕ) → offending result ≡ image_fault (texts_of script.now library) words.now }
{
    let from = reader::begin(script, words, 4)?;
    whole(script, from)?;
    Ok(())
}
