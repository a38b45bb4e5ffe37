//! The words of a statement.

ghost use Rattle.std.specs.Prelude.{◌≡◌, option_map};
ghost use Rattle.std.specs.Option.{option_copied};
ghost use Rattle.rv_forms.specs.Names.{name as name_of_code};
ghost use Rattle.rv_asm.specs.Labels.{words_in};
ghost use Rattle.rv_asm.specs.Operands.{view_by};
ghost use Rattle.rv_asm.specs.Statements.{no_operands, data_words, li_words, instruction_words, statement};
ghost use Rattle.rv_asm.specs.Words.{words_of};

use crate::fault::Why;
use crate::loads::load_words;
use crate::operands::{Context, operands};
use ascii_text::cut;
use rv_forms::{Kind, Name, Operands, kinds_of, read_name, word_of};

/// The words of a statement: `li` has two, any other one.
#[derive(Clone, Copy)]
pub enum Words {
    One(u32),
    Two(u32, u32),
}

/// No value yet, with these order bits.
fn no_operands(aq: bool, rl: bool) -> Operands
    ensures { result ≡ no_operands aq rl }
{
    Operands {
        rd: 0,
        rs1: 0,
        rs2: 0,
        imm: 0,
        wide: 0,
        aq,
        rl,
    }
}

/// The word that `.word` gives.
fn data_words<'t>(context: &Context<'_, 't>, rest: Option<&'t [u8]>) -> Result<Words, Why>
    ensures { view_by words_of result
        ≡ data_words (words_in context.now.labels.now) context.now.here (option_copied rest.entry) }
{
    let values = operands(context, &[Kind::Word], rest, no_operands(false, false))?;
    Ok(Words::One(values.wide))
}

/// The two words that `li` stands for.
fn li_words<'t>(context: &Context<'_, 't>, rest: Option<&'t [u8]>) -> Result<Words, Why>
    ensures { view_by words_of result
        ≡ li_words (words_in context.now.labels.now) context.now.here (option_copied rest.entry) }
{
    let values = operands(
        context,
        &[Kind::Rd, Kind::Value],
        rest,
        no_operands(false, false),
    )?;
    let (upper, lower) = load_words(values.rd, values.wide);
    Ok(Words::Two(upper, lower))
}

/// The word of the instruction with this name.
fn instruction_words<'t>(
    context: &Context<'_, 't>,
    name: Option<Name>,
    rest: Option<&'t [u8]>,
) -> Result<Words, Why>
    ensures { view_by words_of result
        ≡ instruction_words (words_in context.now.labels.now) context.now.here
        (option_map name_of_code name) (option_copied rest.entry) }
{
    match name {
        None => Err(Why::Word),
        Some(name) => {
            let kinds = kinds_of(name.mnemonic.syntax);
            let values = operands(context, kinds, rest, no_operands(name.aq, name.rl))?;
            Ok(Words::One(word_of(name.mnemonic, values)))
        }
    }
}

/// The words of a statement, or its first fault.
#[tactic(auto, unfolding(crate::specs::Statements::statement))]
pub fn statement<'t>(context: &Context<'_, 't>, text: &'t [u8]) -> Result<Words, Why>
    ensures { view_by words_of result
        ≡ statement (words_in context.now.labels.now) context.now.here text.now }
{
    let (name, rest) = cut(text, b' ');
    if name == b".word".as_slice() {
        data_words(context, rest)
    } else if name == b"li".as_slice() {
        li_words(context, rest)
    } else {
        instruction_words(context, read_name(name), rest)
    }
}
