// The node records of an image (document 01, "Words"): each kind's words, read forward.
#![tactic(auto)]

ghost use Rattle.std.specs.Prelude.{◌≡◌, false, ◌&&◌, List, ℕ, ◌+◌, ◌*◌, ◌-◌, ◌%◌, get_or, leb, ltb, eqb};
ghost use Rattle.tok.specs.Word.{kind_of};
ghost use Rattle.tok.specs.Name.{good_name, in_script};
ghost use Rattle.tok.specs.Reader.{word};
ghost use Rattle.reader.specs.Reading.{next_word, Comes};
ghost use Rattle.ast.specs.Outline.{Outline};
ghost use Rattle.ast.specs.NodeRecords.{atom, ident, bin, unary, binding, fn, cases, match, call, field, cast, imports, extern_functions, extern, record_node, array};
ghost use Rattle.ast.specs.NodeRecords.{good_arguments, good_extern_count, good_function_count};
ghost use Rattle.ast.specs.Nodes.{node_kind, good_node_head, node};
ghost use Rattle.image_laws.specs.OutlineAt.{outline_from};
ghost use Rattle.image_words.specs.Leads.{Leads};
ghost use Rattle.image_nodes.specs.Site.{counts_of, site_at, here_of, LeadsAt, Kept};

use ast::NodeKind;
use image_words::{and_pairs, between, names, numbers, pairs, token};
use reader::{Fault, Reader};

// The script text of an image, and its counts, that its records go by.
#[derive(Clone, Copy)]
pub struct Counts<'a> {
    pub text: &'a [u8],
    pub nodes: usize,
    pub types: usize,
    pub slots: usize,
}

// Where a node record is read: the script text and the counts of the image, the node's number and slot, and how many words follow the slot.
#[derive(Clone, Copy)]
pub struct Site<'a> {
    pub counts: Counts<'a>,
    pub number: usize,
    pub slot: usize,
    pub left: usize,
}

impl<'a> Site<'a> {
    // A name or token of the script text.
    fn token<'b>(&self, from: Reader<'b>) -> Result<Reader<'b>, Fault>
        ensures { Comes from.entry (word (good_name in_script self.now.counts.text.now)) (next_word from.entry) result }
    {
        token(self.counts.text, from)
    }
}

// The kinds: the words after the slot, in the order of document 01's table.

// "Operators: 0 to 8"
const OPERATORS: usize = 9;

// 0 Atom: token, type kind 2 to 5.
#[tactic(auto, unfolding(ast::specs::NodeRecords::atom, reader::specs::Reading::gave, image_words::specs::Leads::unanswered), using(image_words::specs::LeadLaws::leads))]
fn atom<'a>(from: Reader<'a>, site: &Site) -> Result<Reader<'a>, Fault>
    ensures { LeadsAt from.entry (site_at site.now) atom result }
{
    let at = site.token(from)?;
    let kind = at.next_word() as usize;
    at.word(between(2, 5, kind))
}

// 1 Ident: name.
#[tactic(auto, unfolding(ast::specs::NodeRecords::ident, reader::specs::Reading::gave, image_words::specs::Leads::unanswered), using(image_words::specs::LeadLaws::leads))]
fn ident<'a>(from: Reader<'a>, site: &Site) -> Result<Reader<'a>, Fault>
    ensures { LeadsAt from.entry (site_at site.now) ident result }
{
    site.token(from)
}

// 2 Bin: token, operator, left, right.
#[tactic(auto, unfolding(ast::specs::NodeRecords::bin, reader::specs::Reading::gave, image_words::specs::Leads::unanswered), using(image_words::specs::LeadLaws::leads))]
fn bin<'a>(from: Reader<'a>, site: &Site) -> Result<Reader<'a>, Fault>
    ensures { LeadsAt from.entry (site_at site.now) bin result }
{
    site.token(from)?
        .below(OPERATORS)?
        .below(site.number)?
        .below(site.number)
}

// 3 Unary: token, operator, right.
#[tactic(auto, unfolding(ast::specs::NodeRecords::unary, reader::specs::Reading::gave, image_words::specs::Leads::unanswered), using(image_words::specs::LeadLaws::leads))]
fn unary<'a>(from: Reader<'a>, site: &Site) -> Result<Reader<'a>, Fault>
    ensures { LeadsAt from.entry (site_at site.now) unary result }
{
    site.token(from)?.below(OPERATORS)?.below(site.number)
}

// 4 Let: name, right.
#[tactic(auto, unfolding(ast::specs::NodeRecords::binding, reader::specs::Reading::gave, image_words::specs::Leads::unanswered), using(image_words::specs::LeadLaws::leads))]
fn binding<'a>(from: Reader<'a>, site: &Site) -> Result<Reader<'a>, Fault>
    ensures { LeadsAt from.entry (site_at site.now) binding result }
{
    site.token(from)?.below(site.number)
}

// Whether n arguments of an Fn lie within its record, and their slots below V.
fn arguments_fit(site: &Site, n: usize) -> bool
    ensures { (kind : ℕ) (before : List Outline) → result ≡ good_arguments (here_of (site_at site.now) kind before) n }
{
    n <= site.left.saturating_sub(3) / 2 && n < site.counts.slots.saturating_sub(site.slot)
}

// 5 Fn: name, return type, argument count, name and type of each, body.
#[tactic(auto, unfolding(reader::specs::Reading::gave, image_words::specs::Leads::unanswered), using(crate::proofs::Rows::fn_words, image_words::specs::LeadLaws::leads))]
fn function<'a>(from: Reader<'a>, site: &Site) -> Result<Reader<'a>, Fault>
    ensures { LeadsAt from.entry (site_at site.now) fn result }
{
    let at = site.token(from)?.below(site.counts.types)?;
    let n = at.next_word() as usize;
    let at = at.word(arguments_fit(site, n))?;
    let at = pairs(site.counts.text, at, n, site.counts.types)?;
    let body = site.left.saturating_sub(3).saturating_sub(2 * n);
    numbers(at, body, site.number)
}

// Whether a body of n words, `others` cases of three words at least and the default's token lie within `room` words.
fn cases_fit(n: usize, others: usize, room: usize) -> bool
    ensures { result ≡ leb (n + 3 * others + 1) room }
{
    others <= room / 3 && n < room - 3 * others
}

// `count` cases and the default, in `left` words: per case token, condition, body count, body; then default token, body.
#[tactic(auto, unfolding(reader::specs::Reading::gave, image_words::specs::Leads::unanswered), using(crate::proofs::Loops::cases_ways))]
fn cases<'a>(from: Reader<'a>, site: &Site, count: usize, left: usize) -> Result<Reader<'a>, Fault>
    ensures { LeadsAt from.entry (site_at site.now) (λ h. cases h count left) result }
{
    let mut to = from;
    let mut room = left;
    for others in (0..count).rev() {
        to = site.token(to)?.below(site.number)?;
        let n = to.next_word() as usize;
        room = room.saturating_sub(3);
        to = to.word(cases_fit(n, others, room))?;
        to = numbers(to, n, site.number)?;
        room = room.saturating_sub(n);
    }
    let at = site.token(to)?;
    numbers(at, room.saturating_sub(1), site.number)
}

// 6 Match: case count; the cases.
#[tactic(auto, unfolding(reader::specs::Reading::gave, image_words::specs::Leads::unanswered), using(crate::proofs::Rows::match_words, image_words::specs::LeadLaws::leads))]
fn matching<'a>(from: Reader<'a>, site: &Site) -> Result<Reader<'a>, Fault>
    ensures { LeadsAt from.entry (site_at site.now) match result }
{
    let count = from.next_word() as usize;
    let room = site.left.saturating_sub(1);
    let at = from.word(cases_fit(0, count, room))?;
    cases(at, site, count, room)
}

// Whether node p lies before node n and may be called.
fn good_target(callable: &[bool], p: usize, n: usize) -> bool
    ensures { result ≡ (ltb p n && get_or callable.now p false) }
{
    p < n && tok::item_at(callable, p, false)
}

// 7 Call: target (Ident or Field), arguments.
#[tactic(auto, unfolding(ast::specs::NodeRecords::call, reader::specs::Reading::gave, image_words::specs::Leads::unanswered), using(image_words::specs::LeadLaws::leads))]
fn call<'a>(from: Reader<'a>, site: &Site, callable: &[bool]) -> Result<Reader<'a>, Fault>
    ensures { (kind : ℕ) (before : List Outline) → Kept callable.now before site.now.number → Leads from.entry (call (here_of (site_at site.now) kind before)) result }
{
    let target = from.next_word() as usize;
    let at = from.word(good_target(callable, target, site.number))?;
    numbers(at, site.left.saturating_sub(1), site.number)
}

// 8 Field: target, name.
#[tactic(auto, unfolding(ast::specs::NodeRecords::field, reader::specs::Reading::gave, image_words::specs::Leads::unanswered), using(image_words::specs::LeadLaws::leads))]
fn field<'a>(from: Reader<'a>, site: &Site) -> Result<Reader<'a>, Fault>
    ensures { LeadsAt from.entry (site_at site.now) field result }
{
    site.token(from.below(site.number)?)
}

// 9 Cast: token, left, type.
#[tactic(auto, unfolding(ast::specs::NodeRecords::cast, reader::specs::Reading::gave, image_words::specs::Leads::unanswered), using(image_words::specs::LeadLaws::leads))]
fn cast<'a>(from: Reader<'a>, site: &Site) -> Result<Reader<'a>, Fault>
    ensures { LeadsAt from.entry (site_at site.now) cast result }
{
    site.token(from)?
        .below(site.number)?
        .below(site.counts.types)
}

// 10 Import: token, paths.
#[tactic(auto, unfolding(ast::specs::NodeRecords::imports, reader::specs::Reading::gave, image_words::specs::Leads::unanswered), using(image_words::specs::LeadLaws::leads))]
fn imports<'a>(from: Reader<'a>, site: &Site) -> Result<Reader<'a>, Fault>
    ensures { LeadsAt from.entry (site_at site.now) imports result }
{
    let at = site.token(from)?;
    names(site.counts.text, at, site.left.saturating_sub(1))
}

// Whether n arguments and `others` functions of three words at least lie within `room` words; the last function's use them up.
fn function_fits(n: usize, others: usize, room: usize) -> bool
    ensures { result ≡ good_extern_count others room n }
{
    if n > room / 2 {
        return false;
    }
    let rest = room - 2 * n;
    if others == 0 {
        rest == 0
    } else {
        others <= rest / 3
    }
}

// `count` functions of an Extern, in `left` words: each: name, return type, argument count, pairs.
#[tactic(auto, unfolding(reader::specs::Reading::gave, image_words::specs::Leads::unanswered), using(crate::proofs::Loops::functions_ways))]
fn functions<'a>(
    from: Reader<'a>,
    site: &Site,
    count: usize,
    left: usize,
) -> Result<Reader<'a>, Fault>
    ensures { LeadsAt from.entry (site_at site.now) (λ h. extern_functions h count left) result }
{
    let mut to = from;
    let mut room = left;
    for others in (0..count).rev() {
        to = site.token(to)?.below(site.counts.types)?;
        let n = to.next_word() as usize;
        room = room.saturating_sub(3);
        to = to.word(function_fits(n, others, room))?;
        to = pairs(site.counts.text, to, n, site.counts.types)?;
        room = room.saturating_sub(2 * n);
    }
    Ok(to)
}

// Whether `count` functions lie within `room` words; of no function there are none.
fn functions_fit(count: usize, room: usize) -> bool
    ensures { result ≡ good_function_count room count }
{
    if count > 0 {
        count <= room / 3
    } else {
        room == 0
    }
}

// 11 Extern: token, name, function count; the functions.
#[tactic(auto, unfolding(reader::specs::Reading::gave, image_words::specs::Leads::unanswered), using(crate::proofs::Rows::extern_words, image_words::specs::LeadLaws::leads))]
fn externs<'a>(from: Reader<'a>, site: &Site) -> Result<Reader<'a>, Fault>
    ensures { LeadsAt from.entry (site_at site.now) extern result }
{
    let at = site.token(from)?;
    let at = site.token(at)?;
    let count = at.next_word() as usize;
    let room = site.left.saturating_sub(3);
    let at = at.word(functions_fit(count, room))?;
    functions(at, site, count, room)
}

// 12 Record: token, name and value pairs.
#[tactic(auto, unfolding(reader::specs::Reading::gave, image_words::specs::Leads::unanswered), using(crate::proofs::Rows::record_words, image_words::specs::LeadLaws::leads))]
fn record_node<'a>(from: Reader<'a>, site: &Site) -> Result<Reader<'a>, Fault>
    ensures { LeadsAt from.entry (site_at site.now) record_node result }
{
    let at = site.token(from)?;
    pairs(
        site.counts.text,
        at,
        site.left.saturating_sub(1) / 2,
        site.number,
    )
}

// 13 Array: token, members.
#[tactic(auto, unfolding(ast::specs::NodeRecords::array, reader::specs::Reading::gave, image_words::specs::Leads::unanswered), using(image_words::specs::LeadLaws::leads))]
fn array<'a>(from: Reader<'a>, site: &Site) -> Result<Reader<'a>, Fault>
    ensures { LeadsAt from.entry (site_at site.now) array result }
{
    let at = site.token(from)?;
    numbers(at, site.left.saturating_sub(1), site.number)
}

// Nodes.

// Whether a record's first word has a kind of node, and a length that the kind may have.
#[tactic(auto, unfolding(ast::specs::Nodes::node_kinds), using(crate::proofs::Heads::long_by))]
fn good_head(head: u32) -> bool
    ensures { result ≡ good_node_head head }
{
    let long = tok::payload(head);
    match NodeKind::of(head) {
        NodeKind::Atom => long == 4,
        NodeKind::Ident => long == 3,
        NodeKind::Bin => long == 6,
        NodeKind::Unary => long == 5,
        NodeKind::Let => long == 4,
        NodeKind::Fn => long >= 5,
        NodeKind::Match => long >= 4,
        NodeKind::Call => long >= 3,
        NodeKind::Field => long == 4,
        NodeKind::Cast => long == 5,
        NodeKind::Import => long >= 3,
        NodeKind::Extern => long >= 5,
        NodeKind::Record => and_pairs(3, long),
        NodeKind::Array => long >= 3,
        NodeKind::None => false,
    }
}

// The words after the slot, by the kind of the record's first word.
#[tactic(auto, unfolding(ast::specs::Nodes::node_kinds, reader::specs::Reading::gave, image_words::specs::Leads::unanswered), using(crate::proofs::Heads::row))]
fn rest<'a>(
    from: Reader<'a>,
    site: &Site,
    callable: &[bool],
    head: u32,
) -> Result<Reader<'a>, Fault>
    ensures { (before : List Outline) → Kept callable.now before site.now.number → Leads from.entry
        ((node_kind head).rest (here_of (site_at site.now) (kind_of head) before)) result }
{
    match NodeKind::of(head) {
        NodeKind::Atom => atom(from, site),
        NodeKind::Ident => ident(from, site),
        NodeKind::Bin => bin(from, site),
        NodeKind::Unary => unary(from, site),
        NodeKind::Let => binding(from, site),
        NodeKind::Fn => function(from, site),
        NodeKind::Match => matching(from, site),
        NodeKind::Call => call(from, site, callable),
        NodeKind::Field => field(from, site),
        NodeKind::Cast => cast(from, site),
        NodeKind::Import => imports(from, site),
        NodeKind::Extern => externs(from, site),
        NodeKind::Record => record_node(from, site),
        NodeKind::Array => array(from, site),
        NodeKind::None => Ok(from),
    }
}

// The record of a node: its first word, its slot, and the rest by kind. `callable`: whether each node before it may be called.
#[tactic(auto, unfolding(ast::specs::Nodes::node, reader::specs::Reading::gave), using(reader::specs::Laws::by_rule))]
pub fn node<'a>(
    callable: &[bool],
    from: Reader<'a>,
    counts: Counts,
    number: usize,
) -> Result<Reader<'a>, Fault>
    ensures { (before : List Outline) → Kept callable.now before number → Comes from.entry (node (counts_of counts.entry) before number)
        (outline_from from.entry.words from.entry.at) result }
{
    let head = from.next_word();
    let long = tok::payload(head);
    let at = from.owing(good_head(head), long.saturating_sub(3))?;
    let slot = at.next_word() as usize;
    let at = at.below(counts.slots)?;
    let site = Site {
        counts,
        number,
        slot,
        left: long.saturating_sub(2),
    };
    rest(at, &site, callable, head)
}
