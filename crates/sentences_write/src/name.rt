// The name of a rule, from its code.
ghost use Rattle.std.specs.Prelude.{◌≡◌};
ghost use Rattle.sentences.specs.Sentences.{rule_name};

// The names are 01's, in the order of the codes; from 12 on there is none. The code stays a number, as
// `write_sentences` has it: an enum would need its way from a number, and an answer for what is none of it.
pub(crate) fn rule_name(code: u16) -> &'static [u8]
    ensures { result.now ≡ rule_name code }
{
    match code {
        0 => b"init",
        1 => b"affirm",
        2 => b"implies right",
        3 => b"implies left",
        4 => b"false left",
        5 => b"and right",
        6 => b"and left",
        7 => b"or right first",
        8 => b"or right second",
        9 => b"or left",
        10 => b"says right",
        11 => b"says left",
        _ => b"",
    }
}
