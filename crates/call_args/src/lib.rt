// What a call carries, and Typechecker::check_call_args of a function without slots: argument count, each argument, the return type.
// The buffers are lent in one order: slots, types (with the texts), diagnostics, messages; then the image.
#![tactic(auto)]

ghost use Rattle.std.specs.Prelude.{◌≡◌, ◌<◌, false, List, ℕ};
ghost use Rattle.tok.specs.Text.{Texts};
ghost use Rattle.ast.specs.Node.{tree_of, slot_of};
ghost use Rattle.err.specs.declared.CallName.TheVariants.{OfPackage};
ghost use Rattle.err.specs.Message.{argument_count, call_name};
ghost use Rattle.library.specs.Package.{Package};
ghost use Rattle.rules.specs.Steps.{report};
ghost use Rattle.rules.specs.Calls.{Provided, arguments, check_call_args};
ghost use Rattle.signatures.specs.Groups.{as_plain};
ghost use Rattle.state.specs.Context.{ctx};
ghost use Rattle.state.specs.World.{Steps};
ghost use Rattle.arguments.specs.Argument.{Leaves};
ghost use Rattle.places.specs.NodesAt.{NodeReady};
ghost use Rattle.spans.specs.Ready.{NodesReady};
ghost use Rattle.call_args.specs.Given.{given_from, argument_in, CallReady};

use arguments::Argument;
use err::CallName;
use places::Image;
use ptype::Types;
use rules::Answer;
use signatures::Signature;
use state::{Step, Used};
use tok::Texts;

// A call: its node, the slot of its answer, and its arguments, whose node numbers stand from word `args` of the image on.
#[derive(Clone, Copy)]
pub struct Call {
    pub n: u32,
    pub slot: u32,
    pub args: usize,
    pub count: usize,
}

// What a call names: the token that a diagnostic is told of, and how the call names its function.
#[derive(Clone, Copy)]
pub struct Callee {
    pub token: u32,
    pub name: CallName,
}

// A call of a package's function: the names of the package and of the function, and whether an argument is poisoned.
#[derive(Clone, Copy)]
pub struct PackageCall {
    pub site: Call,
    pub pkg: u32,
    pub name: u32,
    pub poisoned: bool,
}

impl PackageCall {
    // What it names, by the token of the function's name.
    pub fn callee(&self) -> Callee
        ensures token { result.token ≡ self.now.name }
        ensures name { result.name ≡ OfPackage self.now.pkg self.now.name }
    {
        Callee {
            token: self.name,
            name: CallName::OfPackage(self.pkg, self.name),
        }
    }
}

// The slot of a node.
pub fn slot_of(image: &Image, n: u32) -> u32
    requires { NodeReady image.now.words image.now.places n }
    ensures { result ≡ slot_of (tree_of image.now.words n) }
{
    image.node(n).word(1)
}

// Argument number i of a call, for the parameter of that number.
pub fn argument_of(image: &Image, call: Call, signature: &Signature, i: usize) -> Argument
    requires given { NodesReady image.now.words image.now.places call.n call.args call.count }
    requires within { i < call.count }
    ensures { result ≡ argument_in image.now.words call.args signature.now.params i }
{
    let number = image.word_after(call.args, i);
    Argument {
        name: signature.argument_name(i),
        expected: signature.argument_type(i),
        slot: slot_of(image, number),
        span: spans::span_of(image, number),
    }
}

// Another number of arguments than the signature's: 19.
pub fn report_count(
    diagnostics: &mut [u32],
    messages: &mut [u8],
    texts: &Texts,
    used: Used,
    call: Call,
    callee: Callee,
    required: usize,
) -> Step<()>
    ensures { (s t : List ℕ) → Steps (report call.n (argument_count callee.token (call_name texts.now callee.name) required call.count)) s t diagnostics.old messages.old used
        s t diagnostics.new messages.new result }
{
    let reported = err_calls::argument_count(
        diagnostics,
        messages,
        used.told,
        texts,
        callee.token,
        callee.name,
        required,
        call.count,
    );
    state::told(call.n, used, reported, ())
}

// Each argument, in order.
fn plain_arguments(
    slots: &[u32],
    types: &Types,
    diagnostics: &mut [u32],
    messages: &mut [u8],
    image: &Image,
    used: Used,
    call: Call,
    callee: CallName,
    signature: &Signature,
) -> Step<()>
    requires { CallReady image.now.words image.now.places call.n call.args call.count signature.now.params }
    ensures { let T : Texts = types.now.texts.now in
        let given : List Provided = given_from image.now.words call.args call.count in
        Leaves T (λ c. arguments c call.n (call_name T callee) false signature.now.params given) slots.now types.now.words.now
        diagnostics.old messages.old used diagnostics.new messages.new result }
{
    let mut used = used;
    for i in 0..call.count {
        let arg = argument_of(image, call, signature, i);
        let (_, after) = arguments::plain_argument(
            slots,
            types,
            diagnostics,
            messages,
            used,
            call.n,
            callee,
            arg,
        )?;
        used = after;
    }
    Ok(((), used))
}

// Typechecker::check_call_args, of a function without slots. Another number of arguments is 19, yet the return type is known.
pub fn check_plain(
    slots: &mut [u32],
    types: &Types,
    diagnostics: &mut [u32],
    messages: &mut [u8],
    image: &Image,
    used: Used,
    call: Call,
    callee: Callee,
    signature: &Signature,
) -> Step<Answer>
    requires { NodesReady image.now.words image.now.places call.n call.args call.count }
    ensures { let T : Texts = types.now.texts.now in
        ((ls : List Package) (v : ℕ) →
        let given : List Provided = given_from image.now.words call.args call.count in
        let name : List ℕ = call_name T callee.name in
        Steps (check_call_args (ctx T ls v) call.n call.slot callee.token name (as_plain signature.now) given) slots.old types.now.words.now
        diagnostics.old messages.old used slots.new types.now.words.now diagnostics.new messages.new result) }
{
    let required = signature.argument_count();
    let ret = signature.return_type();
    if call.count != required {
        let (_, used) = report_count(
            diagnostics,
            messages,
            types.texts,
            used,
            call,
            callee,
            required,
        )?;
        return operators::set_known(slots, used, call.slot, ret);
    }
    let (_, used) = plain_arguments(
        &slots[..],
        types,
        diagnostics,
        messages,
        image,
        used,
        call,
        callee.name,
        signature,
    )?;
    operators::set_known(slots, used, call.slot, ret)
}
