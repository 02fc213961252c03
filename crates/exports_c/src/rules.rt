// A register's text of rules, for C: each function is the one of that name of `exports::rules`.
ghost use Rattle.k_tuple.specs.Paper.{gives};
ghost use Rattle.abnf_names.specs.Parts.{nonterminal_part, terminal_part};
ghost use Rattle.exports.specs.Told.{Told};
ghost use Rattle.exports.specs.Rules.{part_words, ReadFor};

// The table of a text's rules, in lent bytes. The answer takes two words: how many bytes are written, and the place of a refusal.
#[unsafe(no_mangle)]
pub extern "C" fn jomankitu_read_abnf(text: &[u8], table: &mut [u8], answer: &mut [u64]) -> u64
    ensures { ReadFor text.now table.old answer.old result table.new
        answer.new }
{
    exports::rules::jomankitu_read_abnf(text, table, answer)
}

// Where in a text the name of a nonterminal is, or "[" of its group, and its length, in two words; 0 and 0 where there is none.
#[unsafe(no_mangle)]
pub extern "C" fn jomankitu_nonterminal_part(text: &[u8], number: u64, out: &mut [u64]) -> u64
    ensures { Told 2 (gives (part_words (nonterminal_part text.now number))) out.old result
        out.new }
{
    exports::rules::jomankitu_nonterminal_part(text, number, out)
}

// Where in a text the literal of a terminal is, without its quotes, and its length, in two words; 0 and 0 where there is none.
#[unsafe(no_mangle)]
pub extern "C" fn jomankitu_terminal_part(text: &[u8], number: u64, out: &mut [u64]) -> u64
    ensures { Told 2 (gives (part_words (terminal_part text.now number))) out.old result
        out.new }
{
    exports::rules::jomankitu_terminal_part(text, number, out)
}
