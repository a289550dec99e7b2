// The functions of an Extern (typecheck/lib.rs, register_extern): each is written as an entry into scratch, "name, argument count, pairs,
// return type", with its types added in the order of arguments and return type.
// The buffers are lent in one order: types, scratch; then the image.
#![tactic(auto)]

ghost use Rattle.std.specs.Prelude.{◌≡◌, List, ℕ, ◌+◌, ◌*◌, ◌≤◌, ◌<◌};
ghost use Rattle.externs.specs.Entries.{ArgumentsRoom, ArguesExtern, FunctionRoom, EntersExtern};

use places::Image;
use state::{Step, Used};
use type_expr::type_from_type_expr;

// The arguments of a function, of which `count` stand in the image from word `from` on: their pairs from word `at` of scratch on.
pub fn extern_arguments(
    types: &mut [u32],
    scratch: &mut [u32],
    image: &Image,
    used: Used,
    n: u32,
    from: usize,
    at: usize,
    count: usize,
) -> Step<()>
    requires { ArgumentsRoom image.now.words image.now.places scratch.old from at count }
    ensures { ArguesExtern image.now.words n from at count types.old used scratch.old types.new scratch.new result }
{
    let mut after = used;
    for k in 0..count {
        let pair = from + 2 * k;
        let t = image.word_after(pair, 1);
        let added = type_from_type_expr(types, after.types, image, t);
        let (w, next) = state::added(n, after, added)?;
        let name = image.word_at(pair);
        add::set_pair(scratch, at + 2 * k, name, w);
        after = next;
    }
    Ok(((), after))
}

// A function, which stands in the image at word `from` ("name, return type, argument count, pairs"): its entry at word `at` of scratch.
pub fn extern_function(
    types: &mut [u32],
    scratch: &mut [u32],
    image: &Image,
    used: Used,
    n: u32,
    from: usize,
    at: usize,
) -> Step<()>
    requires { FunctionRoom image.now.words image.now.places scratch.old from at }
    ensures { EntersExtern image.now.words n from at types.old used scratch.old types.new scratch.new result }
{
    let name = image.word_at(from);
    let count = image.word_after(from, 2);
    add::set_pair(scratch, at, name, count);
    let arguments = count as usize;
    let (_, used) = extern_arguments(types, scratch, image, used, n, from + 3, at + 2, arguments)?;
    let t = image.word_after(from, 1);
    let added = type_from_type_expr(types, used.types, image, t);
    let (w, used) = state::added(n, used, added)?;
    operators::store(scratch, at + 2 + 2 * arguments, w);
    Ok(((), used))
}
