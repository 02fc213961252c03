// The productions of a grammar, as the reader left them in the lent words: an iterator over them, each with its two sides.
ghost use Rattle.std.specs.Prelude.{◌<◌, map};
ghost use Rattle.cfg.specs.Written.{symbol_of};
ghost use Rattle.cfg.specs.Words.{Below, Sound};
ghost use Rattle.cfg.specs.Props.{Below-prop, Sound-prop};

// The two sides of a production. Its nonterminals are below 128.
#[derive(Clone, Copy)]
pub struct Sides<'a> {
    pub left: u16,
    pub right: &'a [u16],
    pub ghost left_below: { left < 128 },
    pub ghost right_below: { Below 128 (map symbol_of right.now) } by { Below-prop 128 (map symbol_of right.now) },
}

// `p` productions, one behind another.
#[derive(Clone, Copy)]
pub struct Productions<'a> {
    pub words: &'a [u16],
    pub p: u16,
    pub ghost sound: { Sound 128 p words.now } by { Sound-prop 128 p words.now },
}

impl<'a> Iterator for Productions<'a> {
    ghost use Rattle.std.specs.Iterator.{YieldsFirstBy, item_count};
    ghost use Rattle.cfg.specs.Productions.{production_in, productions_in};

    type Item = Sides<'a>;

    ghost next_gives = { YieldsFirstBy production_in productions_in };

    ghost remaining = { item_count productions_in };

    fn next(&mut self) -> Option<Sides<'a>> {
        if self.p == 0 {
            return None;
        }
        let words = self.words;
        let end = 2 + usize::from(words[1]);
        let first = Sides {
            left: words[0],
            right: &words[2..end],
        };
        *self = Productions {
            words: &words[end..],
            p: self.p - 1,
        };
        Some(first)
    }
}
