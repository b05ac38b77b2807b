//! From a text to a program.

ghost use Rattle.std.specs.Prelude.{◌≡◌, ℕ, ◌+◌, ◌-◌, ◌++◌, ◌<◌, ◌≤◌, [], ◌∷◌, true, length, drop, codes, decimal, IfOk, IfErr, OnOk, IsTrue, IsFalse, Option, None};
ghost use Rattle.pv_ctc.specs.Texts.{program_text, parts_text, open_text};
ghost use Rattle.pv_ctc.specs.Words.{StandsBefore, word_text};
ghost use Rattle.pv_ctc.specs.Plans.{plan_of, plans_of, IsFor, AreFor, node_count, nodes_in};
ghost use Rattle.pv_ctc.specs.Symbols.{tokens_at, behind};
ghost use Rattle.pv_ctc.specs.Refusals.{Counted, exactly, a_program, a_number, more_programs, is_mark, arguments_due, counted_due, refused_at, IsRefusal};
ghost use Rattle.pv_ctc.specs.Taking.{NoComma, Took, Stopped};
ghost use Rattle.pv_ctc.specs.declared.program.TheConstants.{MOST_PROGRAM_TEXT, MOST_PROGRAMS};

use crate::program::{MOST_PROGRAM_TEXT, MOST_PROGRAMS, MOST_TURNS, Program};
use crate::token::{Token, Word, token_at};
use std::alloc::{AllocError, AllocFailed, Global};

/// Why a text is no program.
#[derive(Clone, Copy, Debug, PartialEq, Eq, Drop)]
pub enum ProgramRefused {
    /// Want of memory.
    Memory,
    /// The first token that is wrong begins at this byte.
    Bad { byte: u32 },
}

impl From<AllocError> for ProgramRefused {
    ghost use Rattle.pv_ctc.specs.declared.reading.ProgramRefused.TheVariants.{Memory};

    ghost from_gives = { λ _ e. e ≡ Memory };

    fn from(_error: AllocError) -> ProgramRefused {
        ProgramRefused::Memory
    }
}

impl<T: Drop> From<AllocFailed<T>> for ProgramRefused {
    ghost use Rattle.pv_ctc.specs.declared.reading.ProgramRefused.TheVariants.{Memory};

    ghost from_gives = { λ _ e. e ≡ Memory };

    fn from(_error: AllocFailed<T>) -> ProgramRefused {
        ProgramRefused::Memory
    }
}

impl Program {
    /// Reads the program of a text, for a system of `count` constraints. Ok comes exactly where the
    /// text is at most 4,096 bytes long and the one spelling of a program of at most 256 nodes,
    /// each number in its range: that of a constraint below `count`, of turns from 1 to 64, and of
    /// a `qinter` from 1 to the number of programs in its list.
    ///
    /// # Errors
    ///
    /// `Bad` where it is not, with the byte where the first wrong token begins: one that no
    /// program's text has there, a number outside its range (of a `qinter` from 1 to 256) or with a
    /// leading zero, the name of the 257th node, or the `)` of a `qinter` with too few programs.
    /// Where the text ends too early the byte is its length, and in a text of more than 4,096 bytes
    /// it is 4,096. `Memory` for want of memory.
    pub fn read(alloc: Global, text: &[u8], count: u32) -> Result<Program, ProgramRefused>
        ensures fits { IfOk result (λ p. IsFor count (plan_of p)) }
        ensures spelled { IfOk result (λ p. text.now ≡ program_text (plan_of p)) }
        ensures few { IfOk result (λ p. node_count (plan_of p) ≤ MOST_PROGRAMS) }
        ensures short { OnOk result (length text.now ≤ MOST_PROGRAM_TEXT) }
        ensures right { OnOk result (refused_at count text.now ≡ None) }
        ensures refused { IfErr result (IsRefusal count text.now) }
    {
        if text.len() > MOST_PROGRAM_TEXT {
            return Err(ProgramRefused::Bad {
                byte: MOST_PROGRAM_TEXT as u32,
            });
        }
        let mut reader = Reader {
            text,
            at: 0,
            count,
            named: 0,
        };
        let program = reader.program(alloc)?;
        reader.want(Token::End)?;
        Ok(program)
    }
}

// What is left of a text.
#[derive(Drop)]
struct Reader<'a> {
    text: &'a [u8],
    at: usize,
    count: u32,
    named: u32,
    ghost is_short: { length text.now ≤ MOST_PROGRAM_TEXT },
    ghost is_within: { at ≤ length text.now },
    ghost is_few: { named ≤ MOST_PROGRAMS },
}

impl<'a> Reader<'a> {
    // The refusal of the token at a place.
    fn refusal(at: usize) -> ProgramRefused
        requires { at ≤ MOST_PROGRAM_TEXT }
        ensures { result ≡ ProgramRefused.Bad at }
    {
        ProgramRefused::Bad { byte: at as u32 }
    }

    // The next token must be this one.
    fn want(&mut self, token: Token) -> Result<(), ProgramRefused>
        requires { is_mark token token ≡ true }
        ensures named { self.new.named ≡ self.old.named }
        ensures count { self.new.count ≡ self.old.count }
        ensures text { self.new.text.now ≡ self.old.text.now }
        ensures stood { OnOk result
            (StandsBefore token (drop self.old.at self.old.text.now)
            (drop self.new.at self.new.text.now)) }
        ensures took { OnOk result (Took self.old.count (exactly token ∷ []) self.old.named
            (tokens_at self.old.text.now self.old.at) ([]) self.new.named
            (behind token (tokens_at self.new.text.now self.new.at))) }
        ensures stopped { IfErr result
            (Stopped self.old.count (exactly token ∷ []) self.old.named
            (tokens_at self.old.text.now self.old.at)) }
    {
        let (found, end) = token_at(self.text, self.at);
        if found != token {
            return Err(Self::refusal(self.at));
        }
        self.at = end;
        Ok(())
    }

    // The next token must be a number from `low` up to below `limit`.
    fn number(&mut self, low: u32, limit: u32) -> Result<u32, ProgramRefused>
        ensures named { self.new.named ≡ self.old.named }
        ensures count { self.new.count ≡ self.old.count }
        ensures range { IfOk result (λ n. (low ≤ n) × (n < limit)) }
        ensures text { self.new.text.now ≡ self.old.text.now }
        ensures stood { IfOk result (λ n. drop self.old.at self.old.text.now ≡
            decimal n ++ drop self.new.at self.new.text.now) }
        ensures took { IfOk result (λ n. (c : Counted) →
            Took self.old.count (a_number low limit c ∷ []) self.old.named
            (tokens_at self.old.text.now self.old.at) (counted_due c n) self.new.named
            (tokens_at self.new.text.now self.new.at)) }
        ensures stopped { IfErr result (λ e. (c : Counted) →
            Stopped self.old.count (a_number low limit c ∷ []) self.old.named
            (tokens_at self.old.text.now self.old.at) e) }
    {
        let (found, end) = token_at(self.text, self.at);
        match found {
            Token::Number(n) if low <= n && n < limit => {
                self.at = end;
                Ok(n)
            }
            _ => Err(Self::refusal(self.at)),
        }
    }

    // The next token must be a word, and is the name of one more node.
    fn word(&mut self) -> Result<Word, ProgramRefused>
        ensures named { IfOk result (λ _. self.new.named ≡ self.old.named + 1) }
        ensures count { self.new.count ≡ self.old.count }
        ensures text { self.new.text.now ≡ self.old.text.now }
        ensures stood { IfOk result (λ w. drop self.old.at self.old.text.now ≡
            word_text w ++ drop self.new.at self.new.text.now) }
        ensures took { IfOk result (λ w.
            Took self.old.count (a_program ∷ []) self.old.named
            (tokens_at self.old.text.now self.old.at)
            (exactly Token.Open ∷ arguments_due self.old.count w) self.new.named
            (tokens_at self.new.text.now self.new.at)) }
        ensures stopped { IfErr result
            (Stopped self.old.count (a_program ∷ []) self.old.named
            (tokens_at self.old.text.now self.old.at)) }
    {
        let (found, end) = token_at(self.text, self.at);
        match found {
            Token::Word(word) if self.named < MOST_PROGRAMS => {
                self.at = end;
                self.named += 1;
                Ok(word)
            }
            _ => Err(Self::refusal(self.at)),
        }
    }

    // Whether the next token is a comma, which is then taken.
    fn comma(&mut self) -> bool
        ensures named { self.new.named ≡ self.old.named }
        ensures count { self.new.count ≡ self.old.count }
        ensures text { self.new.text.now ≡ self.old.text.now }
        ensures stood { IsTrue result → drop self.old.at self.old.text.now ≡
            codes "," ++ drop self.new.at self.new.text.now }
        ensures stayed { IsFalse result → self.new.at ≡ self.old.at }
        ensures took { IsTrue result → (k : ℕ) →
            Took self.old.count (more_programs k ∷ []) self.old.named
            (tokens_at self.old.text.now self.old.at)
            (a_program ∷ more_programs (k - 1) ∷ []) self.new.named
            (tokens_at self.new.text.now self.new.at) }
        ensures ended { IsFalse result →
            NoComma self.old.at (tokens_at self.old.text.now self.old.at) }
    {
        let (found, end) = token_at(self.text, self.at);
        if found == Token::Comma {
            self.at = end;
            return true;
        }
        false
    }

    #[cycle(reading)]
    fn program(&mut self, alloc: Global) -> Result<Program, ProgramRefused>
        ensures named { IfOk result (λ _. self.old.named < self.new.named) }
        ensures count { self.new.count ≡ self.old.count }
        ensures fits { IfOk result (λ p. IsFor self.old.count (plan_of p)) }
        ensures text { self.new.text.now ≡ self.old.text.now }
        ensures stood { IfOk result (λ p. drop self.old.at self.old.text.now ≡
            program_text (plan_of p) ++ drop self.new.at self.new.text.now) }
        ensures nodes { IfOk result (λ p. self.new.named ≡
            self.old.named + node_count (plan_of p)) }
        ensures took { IfOk result (λ p.
            Took self.old.count (a_program ∷ []) self.old.named
            (tokens_at self.old.text.now self.old.at) ([]) self.new.named
            (tokens_at self.new.text.now self.new.at)) }
        ensures stopped { IfErr result
            (Stopped self.old.count (a_program ∷ []) self.old.named
            (tokens_at self.old.text.now self.old.at)) }
    {
        let word = self.word()?;
        self.want(Token::Open)?;
        let program = self.arguments(alloc, word)?;
        self.want(Token::Close)?;
        Ok(program)
    }

    // What stands between the parentheses after a word.
    #[cycle(reading)]
    fn arguments(&mut self, alloc: Global, word: Word) -> Result<Program, ProgramRefused>
        ensures named { IfOk result (λ _. self.old.named ≤ self.new.named) }
        ensures count { self.new.count ≡ self.old.count }
        ensures fits { IfOk result (λ p. IsFor self.old.count (plan_of p)) }
        ensures text { self.new.text.now ≡ self.old.text.now }
        ensures stood { IfOk result (λ p.
            word_text word ++ codes "(" ++ drop self.old.at self.old.text.now ≡
            open_text (plan_of p) ++ drop self.new.at self.new.text.now) }
        ensures nodes { IfOk result (λ p. self.new.named + 1 ≡
            self.old.named + node_count (plan_of p)) }
        ensures took { IfOk result (λ p.
            Took self.old.count (arguments_due self.old.count word) self.old.named
            (tokens_at self.old.text.now self.old.at) (exactly Token.Close ∷ []) self.new.named
            (tokens_at self.new.text.now self.new.at)) }
        ensures stopped { IfErr result
            (Stopped self.old.count (arguments_due self.old.count word) self.old.named
            (tokens_at self.old.text.now self.old.at)) }
    {
        match word {
            Word::Hc4 => Ok(Program::Hc4(self.number(0, self.count)?)),
            Word::Prop => Ok(Program::Prop(self.number(1, MOST_TURNS + 1)?)),
            Word::Compose => Ok(Program::Compose(self.parts(alloc)?)),
            Word::Union => Ok(Program::Union(self.parts(alloc)?)),
            Word::QInter => {
                let q = self.number(1, MOST_PROGRAMS + 1)?;
                self.want(Token::Comma)?;
                let parts = self.parts(alloc)?;
                if parts.len() < q as usize {
                    return Err(Self::refusal(self.at));
                }
                Ok(Program::QInter(q, parts))
            }
            Word::Fix => {
                let turns = self.number(1, MOST_TURNS + 1)?;
                self.want(Token::Comma)?;
                let part = self.program(alloc)?;
                Ok(Program::Fix(turns, Box::new(alloc, part)?))
            }
        }
    }

    // One program or more, with commas between them.
    #[cycle(reading)]
    fn parts(&mut self, alloc: Global) -> Result<Vec<Program>, ProgramRefused>
        ensures named { IfOk result (λ _. self.old.named ≤ self.new.named) }
        ensures count { self.new.count ≡ self.old.count }
        ensures some { IfOk result (λ ps. 1 ≤ length ps.items) }
        ensures fits { IfOk result (λ ps. AreFor self.old.count (plans_of ps.items)) }
        ensures text { self.new.text.now ≡ self.old.text.now }
        ensures stood { IfOk result (λ ps. drop self.old.at self.old.text.now ≡
            parts_text 0 (plans_of ps.items) ++ drop self.new.at self.new.text.now) }
        ensures nodes { IfOk result (λ ps. self.new.named ≡
            self.old.named + nodes_in (plans_of ps.items)) }
        ensures took { IfOk result (λ ps. (k : ℕ) →
            Took self.old.count (a_program ∷ more_programs k ∷ []) self.old.named
            (tokens_at self.old.text.now self.old.at)
            (more_programs (k + 1 - length ps.items) ∷ []) self.new.named
            (tokens_at self.new.text.now self.new.at)) }
        ensures ended { OnOk result
            (NoComma self.new.at (tokens_at self.new.text.now self.new.at)) }
        ensures stopped { IfErr result (λ e. (k : ℕ) →
            Stopped self.old.count (a_program ∷ more_programs k ∷ []) self.old.named
            (tokens_at self.old.text.now self.old.at) e) }
    {
        let mut parts = Vec::new(alloc);
        parts.push(self.program(alloc)?)?;
        while self.comma() {
            parts.push(self.program(alloc)?)?;
        }
        Ok(parts)
    }
}
