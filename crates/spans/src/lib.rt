// The spans of whole nodes and of type expressions (ast.rs: Ast::span, Ast::type_span, Ast::cover_spans).
// Recursion by the number of the node: "A part's number is smaller than its owner's."
#![tactic(auto)]

ghost use Rattle.std.specs.Prelude.{◌≡◌, ◌+◌, ◌≤◌};
ghost use Rattle.ast.specs.TypeExpr.{type_of};
ghost use Rattle.ast.specs.Node.{tree_of, cases_end};
ghost use Rattle.ast.specs.Span.{type_span, span_of};
ghost use Rattle.places.specs.NodesAt.{NodeReady};
ghost use Rattle.type_expr.specs.Ready.{TypeReady};
ghost use Rattle.spans.specs.Covers.{cover_from};
ghost use Rattle.spans.specs.Lists.{spans_at, value_spans_at, case_spans_at, token_spans_at, arg_spans_at, extern_spans_at};
ghost use Rattle.spans.specs.Ready.{NodesReady, ValuesReady, CasesReady, ArgsReady, ExternsReady, ListReady, MatchReady};

use ast::NodeKind;
use places::{Image, NodeAt};
use tok::{Span, cover_spans, token_span};

// The span of a type expression: that of its token.
pub fn type_span(image: &Image, t: u32) -> Span
    requires { TypeReady image.now.words image.now.places t }
    ensures { result ≡ type_span (type_of image.now.words t) }
{
    token_span(type_expr::type_token(image, t))
}

// Lists. Each of these covers, besides the span that is given, the k items from word `at` on.

// Tokens.
fn cover_tokens(image: &Image, span: Span, at: usize, k: usize) -> Span
    requires { at + k ≤ 8192 }
    ensures { result ≡ cover_from span (token_spans_at image.now.words at k) }
{
    let mut covered = span;
    for i in at..at + k {
        covered = cover_spans(covered, token_span(image.word_at(i)));
    }
    covered
}

// Arguments: name and type of each.
fn cover_args(image: &Image, span: Span, at: usize, k: usize) -> Span
    requires { ArgsReady image.now.words image.now.places at k }
    ensures { result ≡ cover_from span (arg_spans_at image.now.words at k) }
{
    let mut covered = span;
    for i in 0..k {
        let pair = at + 2 * i;
        let named = cover_spans(covered, token_span(image.word_at(pair)));
        covered = cover_spans(named, type_span(image, image.word_after(pair, 1)));
    }
    covered
}

// Functions of an Extern: name, arguments and return type of each.
fn cover_externs(image: &Image, span: Span, at: usize, k: usize) -> Span
    requires { ExternsReady image.now.words image.now.places at k }
    ensures { result ≡ cover_from span (extern_spans_at image.now.words at k) }
{
    let mut covered = span;
    let mut i = at;
    for _ in 0..k {
        let count = image.word_after(i, 2) as usize;
        let named = cover_spans(covered, token_span(image.word_at(i)));
        let pairs = i + 3;
        let args = cover_args(image, named, pairs, count);
        covered = cover_spans(args, type_span(image, image.word_after(i, 1)));
        i = pairs + 2 * count;
    }
    covered
}

// The word after the cases of a Match.
fn cases_end(node: &NodeAt, at: usize, k: usize) -> usize
    requires { CasesReady node.now.image.now.words node.now.image.now.places node.now.n at k }
    ensures { result ≡ cases_end node.now.image.now.words at k }
{
    let mut i = at;
    for _ in 0..k {
        i = i + 3 + node.image.word_after(i, 2) as usize;
    }
    i
}

// Nodes, parts of a node.
#[cycle(cover_cases_cover_nodes_cover_values_list_span_match_span_span_of)]
fn cover_nodes(node: &NodeAt, span: Span, at: usize, k: usize) -> Span
    requires { NodesReady node.now.image.now.words node.now.image.now.places node.now.n at k }
    ensures { result ≡ cover_from span (spans_at node.now.image.now.words at k) }
{
    let mut covered = span;
    for i in at..at + k {
        covered = cover_spans(covered, span_of(node.image, node.image.word_at(i)));
    }
    covered
}

// Fields of a Record: name and value of each.
#[cycle(cover_cases_cover_nodes_cover_values_list_span_match_span_span_of)]
fn cover_values(node: &NodeAt, span: Span, at: usize, k: usize) -> Span
    requires { ValuesReady node.now.image.now.words node.now.image.now.places node.now.n at k }
    ensures { result ≡ cover_from span (value_spans_at node.now.image.now.words at k) }
{
    let mut covered = span;
    for i in 0..k {
        let pair = at + 2 * i;
        let named = cover_spans(covered, token_span(node.image.word_at(pair)));
        covered = cover_spans(named, span_of(node.image, node.image.word_after(pair, 1)));
    }
    covered
}

// Cases of a Match: token, condition and body of each.
#[cycle(cover_cases_cover_nodes_cover_values_list_span_match_span_span_of)]
fn cover_cases(node: &NodeAt, span: Span, at: usize, k: usize) -> Span
    requires { CasesReady node.now.image.now.words node.now.image.now.places node.now.n at k }
    ensures { result ≡ cover_from span (case_spans_at node.now.image.now.words at k) }
{
    let mut covered = span;
    let mut i = at;
    for _ in 0..k {
        let count = node.image.word_after(i, 2) as usize;
        let begun = cover_spans(covered, token_span(node.image.word_at(i)));
        let tested = cover_spans(begun, span_of(node.image, node.image.word_after(i, 1)));
        let body = i + 3;
        covered = cover_nodes(node, tested, body, count);
        i = body + count;
    }
    covered
}

// Nodes.

// The span of a Match: from the default's token on, its cases and the default's body.
#[cycle(cover_cases_cover_nodes_cover_values_list_span_match_span_span_of)]
fn match_span(node: &NodeAt) -> Span
    requires { MatchReady node.now.image.now.words node.now.image.now.places node.now.n node.now.at }
    ensures { result ≡ span_of (tree_of node.now.image.now.words node.now.n) }
{
    let count = node.word(2) as usize;
    let begin = node.at + 3;
    let default = cases_end(node, begin, count);
    let first = token_span(node.image.word_at(default));
    let cases = cover_cases(node, first, begin, count);
    let body = default + 1;
    let end = node.at + node.length();
    cover_nodes(node, cases, body, end - body)
}

// The span of a node of a kind that has a list.
#[cycle(cover_cases_cover_nodes_cover_values_list_span_match_span_span_of)]
#[tactic(auto, using(crate::proofs::ListsAt::room))]
fn list_span(node: &NodeAt) -> Span
    requires { ListReady node.now.image.now.words node.now.image.now.places node.now.n node.now.at }
    ensures { result ≡ span_of (tree_of node.now.image.now.words node.now.n) }
{
    let long = node.length();
    let first = token_span(node.word(2));
    match node.kind() {
        NodeKind::Fn => {
            let words = 5 + 2 * (node.word(4) as usize);
            cover_nodes(node, first, node.at + words, long - words)
        }
        NodeKind::Match => match_span(node),
        NodeKind::Call => {
            let target = span_of(node.image, node.word(2));
            cover_nodes(node, target, node.at + 3, long - 3)
        }
        NodeKind::Import => cover_tokens(node.image, first, node.at + 3, long - 3),
        NodeKind::Extern => {
            let named = cover_spans(first, token_span(node.word(3)));
            cover_externs(node.image, named, node.at + 5, node.word(4) as usize)
        }
        NodeKind::Record => cover_values(node, first, node.at + 3, (long - 3) / 2),
        // an Array: no other kind has a list
        _ => cover_nodes(node, first, node.at + 3, long - 3),
    }
}

// The span of a node.
#[cycle(cover_cases_cover_nodes_cover_values_list_span_match_span_span_of)]
pub fn span_of(image: &Image, n: u32) -> Span
    requires { NodeReady image.now.words image.now.places n }
    ensures { result ≡ span_of (tree_of image.now.words n) }
{
    let node = image.node(n);
    let first = token_span(node.word(2));
    match node.kind() {
        NodeKind::Atom | NodeKind::Ident => first,
        NodeKind::Bin => {
            let left = span_of(image, node.word(4));
            let right = span_of(image, node.word(5));
            cover_spans(cover_spans(left, first), right)
        }
        NodeKind::Unary => cover_spans(first, span_of(image, node.word(4))),
        NodeKind::Let => cover_spans(first, span_of(image, node.word(3))),
        NodeKind::Field => {
            let target = span_of(image, node.word(2));
            cover_spans(target, token_span(node.word(3)))
        }
        NodeKind::Cast => {
            let left = span_of(image, node.word(3));
            let ty = type_span(image, node.word(4));
            cover_spans(cover_spans(left, first), ty)
        }
        _ => list_span(&node),
    }
}
