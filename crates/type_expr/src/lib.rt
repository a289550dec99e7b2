// Types built from the type expressions of an image (frontend/lib.rs: type_from_type_expr; ast.rs: Ast::type_token).
// Recursion by the levels.
#![tactic(auto)]

ghost use Rattle.std.specs.Prelude.{◌≡◌, ℕ, ◌+◌, ◌*◌, ◌<◌, ◌≤◌, ◌^◌, length};
ghost use Rattle.std.specs.Iterator.{YieldsFirst, item_count};
ghost use Rattle.tok.specs.Word.{word_of, payload_of};
ghost use Rattle.tok.specs.Text.{Texts};
ghost use Rattle.tok.specs.Step.{next};
ghost use Rattle.ptype.specs.Add.{buffer, write, add_record};
ghost use Rattle.add.specs.Answer.{result_of, Allocates};
ghost use Rattle.add.specs.Parts.{record_from};
ghost use Rattle.ast.specs.TypeExpr.{TypeFields, type_of, type_token};
ghost use Rattle.ast.specs.TypeFrom.{type_from, fields_from_exprs};
ghost use Rattle.places.specs.Levels.{levels_of, most_levels};
ghost use Rattle.type_expr.specs.Ready.{TypeReady};
ghost use Rattle.type_expr.specs.Trees.{tree, trees};
ghost use Rattle.type_expr.specs.Shape.{shape_of};
ghost use Rattle.type_expr.specs.LevelLaws.{Atoms};
ghost use Rattle.type_expr.specs.Onward.{Onward};
ghost use Rattle.type_expr.specs.Sizes.{size_of, sizes_of, word_before, pairs_after};

use add::{AddError, Added, Arena, MOST_LEVELS};
use ast::ExprKind;
use places::{Image, fields_in};
use ptype::TypeKind;
use std::marker::Model;
use tok::payload;

// A type expression of an accepted image. Its value is the image's words and its number, of which `tree` is the tree.
#[derive(Drop)]
struct TypeAt<'a, 'b> {
    image: &'a Image<'b>,
    t: u32,
}

impl<'a, 'b> Model for TypeAt<'a, 'b> {
    ghost use Rattle.type_expr.specs.Trees.{Numbered, numbered};
    ghost use Rattle.type_expr.specs.Ready.{TypeReady};

    ghost Value = { Numbered };

    ghost view = { λ x. numbered x.image.now.words x.t };

    ghost invariant = { λ x. TypeReady x.image.now.words x.image.now.places x.t };
}

// The fields of a Record, from the one on whose pair stands at word `at`: `left` of them. Its value is the list of their names and types.
#[derive(Drop)]
struct Fields<'a, 'b> {
    image: &'a Image<'b>,
    owner: u32,
    at: usize,
    left: usize,
}

impl<'a, 'b> Model for Fields<'a, 'b> {
    ghost use Rattle.std.specs.Prelude.{ℕ, List};
    ghost use Rattle.type_expr.specs.Trees.{Numbered, pairs_from};
    ghost use Rattle.type_expr.specs.Ready.{FieldsReady};

    ghost Value = { List (ℕ × Numbered) };

    ghost view = { λ f. pairs_from f.image.now.words f.at f.left };

    ghost invariant = { λ f. FieldsReady f.image.now.words f.image.now.places f.owner f.at f.left };
}

// What a type expression is: a kind with nothing inside or a type of the script's, with its token; an Option or an Array, with what is inside;
// a Record, with its token and its fields.
#[derive(Drop)]
enum Shape<'a, 'b> {
    Atom(u32, TypeKind),
    Foreign(u32),
    Option(TypeAt<'a, 'b>),
    Array(TypeAt<'a, 'b>),
    Record(u32, Fields<'a, 'b>),
}

impl<'a, 'b> TypeAt<'a, 'b> {
    // What it is.
    fn shape(&self) -> Shape<'a, 'b>
        ensures { shape_of result ≡ tree self.now }
    {
        let image = self.image;
        let at = image.type_place(self.t);
        let head = image.word_at(at);
        let first = image.word_after(at, 1);
        match ExprKind::of(head) {
            ExprKind::Atom => Shape::Atom(first, TypeKind::from(image.word_after(at, 2))),
            ExprKind::Foreign => Shape::Foreign(first),
            ExprKind::Option => Shape::Option(TypeAt { image, t: first }),
            ExprKind::Record => {
                let fields = Fields {
                    image,
                    owner: self.t,
                    at: at + 2,
                    left: fields_in(head),
                };
                Shape::Record(first, fields)
            }
            _ => Shape::Array(TypeAt { image, t: first }),
        }
    }

    // How many levels it has.
    fn levels(&self) -> usize
        ensures { (result ≡ levels_of (tree self.now)) × Atoms (tree self.now) }
    {
        self.image.type_levels(self.t)
    }
}

impl<'a, 'b> Fields<'a, 'b> {
    // How many there are.
    fn len(&self) -> usize
        ensures { (result ≡ length self.now) × (result < 2 ^ 13) }
    {
        self.left
    }

    // From the first on.
    fn iter(&self) -> Fields<'a, 'b>
        ensures { result ≡ self.now }
    {
        Fields {
            image: self.image,
            owner: self.owner,
            at: self.at,
            left: self.left,
        }
    }
}

impl<'a, 'b> Iterator for Fields<'a, 'b> {
    type Item = (u32, TypeAt<'a, 'b>);

    ghost next_gives = { YieldsFirst (λ fs. fs) };

    ghost remaining = { item_count (λ fs. fs) };

    fn next(&mut self) -> Option<(u32, TypeAt<'a, 'b>)> {
        if self.left == 0 {
            return None;
        }
        let image = self.image;
        let name = image.word_at(self.at);
        let t = image.word_after(self.at, 1);
        self.at += 2;
        self.left -= 1;
        Some((name, TypeAt { image, t }))
    }
}

// The token of a type expression: through Option and Array that of the innermost.
pub fn type_token(image: &Image, t: u32) -> u32
    requires { TypeReady image.now.words image.now.places t }
    ensures { result ≡ type_token (type_of image.now.words t) }
{
    let mut here = TypeAt { image, t };
    loop {
        match here.shape() {
            Shape::Option(inner) | Shape::Array(inner) => here = inner,
            Shape::Atom(token, _) | Shape::Foreign(token) | Shape::Record(token, _) => return token,
        }
    }
}

// The word of a type of the script's: kind 9 with the token's payload.
fn foreign_word(token: u32) -> u32
    ensures { result ≡ word_of 9 (payload_of token) }
{
    TypeKind::Foreign.word(payload(token))
}

// Adds the type of a type expression, what is inside it first. Where it is refused, the rules leave open what the buffer holds.
// More than 32 levels are refused in the end (8, or 7 where the buffer is full before), so of more than 33 only the first part of more
// than 32 levels is gone on with: no frame for each level past them.
pub fn type_from_type_expr(types: &mut [u32], used: usize, image: &Image, t: u32) -> Added
    requires { TypeReady image.now.words image.now.places t }
    ensures { (T : Texts) (n : ℕ) → type_from T n (type_of image.now.words t) (buffer types.old used) ≡ result_of n result types.new }
{
    let mut arena = Arena::new(types, used);
    let mut here = TypeAt { image, t };
    while here.levels() > MOST_LEVELS + 1 {
        here = deep_part(&mut arena, &here)?;
    }
    let word = build(&mut arena, &here);
    arena.answer(word)
}

// Of a type expression of more than 33 levels, the first part of more than 32; what stands before the part is added. Or why that is not added.
fn deep_part<'a, 'b>(arena: &mut Arena, expr: &TypeAt<'a, 'b>) -> Result<TypeAt<'a, 'b>, AddError>
    requires { (33 < levels_of (tree expr.now)) × Atoms (tree expr.now) }
    ensures { Onward (levels_of (tree expr.now)) (λ T n. type_from T n (tree expr.now)) arena.old result arena.new }
{
    match expr.shape() {
        Shape::Option(inner) => Ok(inner),
        Shape::Array(inner) => Ok(inner),
        Shape::Record(_, fields) => deep_field(arena, &fields),
        // not reached: these have one level
        Shape::Atom(_, _) => Err(AddError::TooDeep),
        Shape::Foreign(_) => Err(AddError::TooDeep),
    }
}

// The same of the fields of a Record.
fn deep_field<'a, 'b>(
    arena: &mut Arena,
    fields: &Fields<'a, 'b>,
) -> Result<TypeAt<'a, 'b>, AddError>
    requires { 32 < most_levels (trees fields.now) }
    ensures { let fs : TypeFields = trees fields.now in
        Onward (1 + most_levels fs) (λ T n b. next (fields_from_exprs T n fs b) (add_record T n)) arena.old result arena.new }
{
    for (_, expr) in fields.iter() {
        if expr.levels() > MOST_LEVELS {
            return Ok(expr);
        }
        build(arena, &expr)?;
    }
    // not reached: one of the fields has more than 32 levels
    Err(AddError::TooDeep)
}

// Adds the type of a type expression of at most 33 levels. It calls itself once for each level.
#[cycle(build_fields_from_exprs)]
fn build(arena: &mut Arena, expr: &TypeAt) -> Result<u32, AddError>
    requires { levels_of (tree expr.now) ≤ 33 }
    ensures { Allocates (λ T n. type_from T n (tree expr.now)) arena.old result arena.new }
{
    match expr.shape() {
        Shape::Atom(_, kind) => Ok(kind.word(0)),
        Shape::Foreign(token) => Ok(foreign_word(token)),
        Shape::Record(_, fields) => {
            let word = fields_from_exprs(arena, &fields)?;
            arena.close_record(word)
        }
        Shape::Option(inner) => {
            let word = build(arena, &inner)?;
            arena.add_option(word)
        }
        Shape::Array(inner) => {
            let word = build(arena, &inner)?;
            arena.add_array(word)
        }
    }
}

// Adds the Record of some fields: first the types of all fields, then the Record is opened, and then its pairs are set. They are not kept until
// then, since the words used say what each of them is.
#[cycle(build_fields_from_exprs)]
fn fields_from_exprs(arena: &mut Arena, fields: &Fields) -> Result<u32, AddError>
    requires { most_levels (trees fields.now) ≤ 32 }
    ensures { Allocates (λ T n. record_from n (length fields.now) 0 (fields_from_exprs T n (trees fields.now))) arena.old result arena.new }
{
    let used = arena.used;
    for (_, expr) in fields.iter() {
        build(arena, &expr)?;
    }
    let word = arena.open_record(fields.len())?;
    set_pairs(arena.words, used, fields, payload(word) + 1);
    Ok(word)
}

// Sets the pairs of fields whose types were added after `used` words, from `place` on.
fn set_pairs(types: &mut [u32], used: usize, fields: &Fields, place: usize)
    requires { (used + sizes_of (trees fields.now) ≤ 8192) × (place + 2 * length fields.now < 2 ^ 40) }
    ensures { types.new ≡ write types.old place (pairs_after used (trees fields.now)) }
{
    let mut end = used;
    let mut to = place;
    for (name, expr) in fields.iter() {
        end += type_size(&expr);
        add::set_pair(types, to, name, type_word(&expr, end));
        to += 2;
    }
}

// The word of a type expression whose type was added last, when `end` words are used.
fn type_word(expr: &TypeAt, end: usize) -> u32
    requires { (size_of (tree expr.now) ≤ end) × (end ≤ 8192) }
    ensures { result ≡ word_before end (tree expr.now) }
{
    match expr.shape() {
        Shape::Atom(_, kind) => kind.word(0),
        Shape::Foreign(token) => foreign_word(token),
        Shape::Record(_, fields) => TypeKind::Record.word(end - (1 + 2 * fields.len())),
        Shape::Option(_) => TypeKind::Option.word(end - 1),
        Shape::Array(_) => TypeKind::Array.word(end - 1),
    }
}

// How many words a type expression adds. It is asked only of types that were just added: these have at most 32 levels and fit the
// buffer, and each field met is two words of it, so it takes no more steps than there are words, for each level at most once.
#[cycle(sizes_type_size)]
fn type_size(expr: &TypeAt) -> usize
    requires { size_of (tree expr.now) ≤ 8192 }
    ensures { result ≡ size_of (tree expr.now) }
{
    match expr.shape() {
        Shape::Atom(_, _) => 0,
        Shape::Foreign(_) => 0,
        Shape::Record(_, fields) => sizes(&fields) + (1 + 2 * fields.len()),
        Shape::Option(inner) => type_size(&inner) + 1,
        Shape::Array(inner) => type_size(&inner) + 1,
    }
}

// How many words the types of fields add.
#[cycle(sizes_type_size)]
fn sizes(fields: &Fields) -> usize
    requires { sizes_of (trees fields.now) ≤ 8192 }
    ensures { result ≡ sizes_of (trees fields.now) }
{
    let mut sum: usize = 0;
    for (_, expr) in fields.iter() {
        sum += type_size(&expr);
    }
    sum
}
