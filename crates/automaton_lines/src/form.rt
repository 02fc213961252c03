// The two forms in which automata are shown: as lines, or as a picture. Each says how an automaton, a state and an arrow stand in it.
use lines::put_pairs;
use std::io::Write;
use std::{fmt, io};

// A state of a nonterminal's automaton. In a picture this is its name.
#[derive(Clone, Copy, Debug, PartialEq, Eq)]
pub struct State {
    pub nonterminal: usize,
    pub number: u16,
}

impl fmt::Display for State {
    fn fmt<W: fmt::Write>(&self, f: &mut fmt::Formatter<W>) -> fmt::Result {
        write!(f, "n{}s{}", self.nonterminal, self.number)
    }
}

pub trait Form {
    // What stands before all automata.
    fn put_first(&self, out: &mut impl Write, bytes: &[u8]) -> io::Result<()>;

    // And behind them.
    fn put_last(&self, out: &mut impl Write) -> io::Result<()>;

    // What stands before the states of an automaton.
    fn put_open(&self, out: &mut impl Write, nonterminal: usize) -> io::Result<()>;

    // And behind them.
    fn put_close(&self, out: &mut impl Write) -> io::Result<()>;

    // A state with the production that it accepts, if it accepts one.
    fn put_begun(&self, out: &mut impl Write, s: State, production: Option<u16>) -> io::Result<()>;

    // What stands behind the arrows of a state.
    fn put_ended(&self, out: &mut impl Write) -> io::Result<()>;

    // An arrow from a state by a terminal to a target.
    fn put_arrow(
        &self,
        out: &mut impl Write,
        s: State,
        terminal: u16,
        target: u16,
    ) -> io::Result<()>;
}

// The bytes in hexadecimal, then a line for each state.
#[derive(Clone, Copy, Debug, PartialEq, Eq)]
pub struct Lines;

impl Form for Lines {
    fn put_first(&self, out: &mut impl Write, bytes: &[u8]) -> io::Result<()> {
        put_pairs(out, bytes)
    }

    fn put_last(&self, _out: &mut impl Write) -> io::Result<()> {
        Ok(())
    }

    fn put_open(&self, _out: &mut impl Write, _nonterminal: usize) -> io::Result<()> {
        Ok(())
    }

    fn put_close(&self, _out: &mut impl Write) -> io::Result<()> {
        Ok(())
    }

    fn put_begun(&self, out: &mut impl Write, s: State, production: Option<u16>) -> io::Result<()> {
        write!(out, "A {} {}", s.nonterminal, s.number)?;
        match production {
            Some(i) => write!(out, ": production {i}"),
            None => write!(out, ": none"),
        }
    }

    fn put_ended(&self, out: &mut impl Write) -> io::Result<()> {
        writeln!(out)
    }

    fn put_arrow(
        &self,
        out: &mut impl Write,
        _s: State,
        terminal: u16,
        target: u16,
    ) -> io::Result<()> {
        write!(out, " {terminal}->{target}")
    }
}

// A picture: a box for each nonterminal. The form of an accepting state is another.
#[derive(Clone, Copy, Debug, PartialEq, Eq)]
pub struct Picture;

impl Form for Picture {
    fn put_first(&self, out: &mut impl Write, _bytes: &[u8]) -> io::Result<()> {
        out.write_all(b"digraph automata {\n    rankdir=LR;\n    node [shape=circle];\n")
    }

    fn put_last(&self, out: &mut impl Write) -> io::Result<()> {
        out.write_all(b"}\n")
    }

    fn put_open(&self, out: &mut impl Write, nonterminal: usize) -> io::Result<()> {
        writeln!(out, "    subgraph cluster_{nonterminal} {{")?;
        writeln!(out, "        label=\"nonterminal {nonterminal}\";")
    }

    fn put_close(&self, out: &mut impl Write) -> io::Result<()> {
        out.write_all(b"    }\n")
    }

    fn put_begun(&self, out: &mut impl Write, s: State, production: Option<u16>) -> io::Result<()> {
        write!(out, "        {s} [label=\"{}", s.number)?;
        match production {
            Some(i) => writeln!(out, ": production {i}\", shape=box];"),
            None => writeln!(out, "\"];"),
        }
    }

    fn put_ended(&self, _out: &mut impl Write) -> io::Result<()> {
        Ok(())
    }

    fn put_arrow(
        &self,
        out: &mut impl Write,
        s: State,
        terminal: u16,
        target: u16,
    ) -> io::Result<()> {
        let end = State {
            nonterminal: s.nonterminal,
            number: target,
        };
        writeln!(out, "        {s} -> {end} [label=\"{terminal}\"];")
    }
}
