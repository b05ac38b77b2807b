//! From a program to its text.

ghost use Rattle.std.specs.Prelude.{◌≡◌, ◌++◌, codes, decimal, IfOk, OnOk};
ghost use Rattle.pv_ctc.specs.Plans.{plan_of, plans_of};
ghost use Rattle.pv_ctc.specs.Texts.{program_text, parts_text, comma_text};

use crate::program::Program;
use pv_expr::text::{put, put_number};
use pv_num::Memory;
use std::alloc::Global;

impl Program {
    /// The one spelling of the program.
    pub fn text(&self, alloc: Global) -> Result<Vec<u8>, Memory>
        ensures { IfOk result (λ text. text.items ≡ program_text (plan_of self.now)) }
    {
        let mut out = Vec::new(alloc);
        write_program(&mut out, self)?;
        Ok(out)
    }
}

#[cycle(writing)]
fn write_program(out: &mut Vec<u8>, program: &Program) -> Result<(), Memory>
    ensures { OnOk result (out.new.items ≡ out.old.items ++ program_text (plan_of program.now)) }
{
    match program {
        Program::Hc4(i) => write_leaf(out, b"hc4(", *i),
        Program::Prop(turns) => write_leaf(out, b"prop(", *turns),
        Program::Compose(parts) => write_list(out, b"compose(", parts),
        Program::Union(parts) => write_list(out, b"union(", parts),
        Program::QInter(q, parts) => {
            write_head(out, b"qinter(", *q)?;
            write_list(out, b",", parts)
        }
        Program::Fix(turns, part) => {
            write_head(out, b"fix(", *turns)?;
            put(out, b",")?;
            write_program(out, part)?;
            put(out, b")")
        }
    }
}

// What stands in front of some programs, and then these, with commas between them.
#[cycle(writing)]
fn write_list(out: &mut Vec<u8>, head: &[u8], parts: &[Program]) -> Result<(), Memory>
    ensures { OnOk result (out.new.items ≡
        out.old.items ++ (head.now ++ parts_text 0 (plans_of parts.now) ++ codes ")")) }
{
    put(out, head)?;
    write_parts(out, parts)?;
    put(out, b")")
}

// The programs of a list, with commas between them.
#[cycle(writing)]
fn write_parts(out: &mut Vec<u8>, parts: &[Program]) -> Result<(), Memory>
    ensures { OnOk result (out.new.items ≡ out.old.items ++ parts_text 0 (plans_of parts.now)) }
{
    for i in 0..parts.len() {
        write_comma(out, i)?;
        write_program(out, &parts[i])?;
    }
    Ok(())
}

fn write_comma(out: &mut Vec<u8>, i: usize) -> Result<(), Memory>
    ensures { OnOk result (out.new.items ≡ out.old.items ++ comma_text i) }
{
    if i == 0 {
        return Ok(());
    }
    put(out, b",")
}

// A word with its parenthesis, a number, and the other parenthesis.
fn write_leaf(out: &mut Vec<u8>, word: &[u8], n: u32) -> Result<(), Memory>
    ensures { OnOk result (out.new.items ≡ out.old.items ++ (word.now ++ decimal n ++ codes ")")) }
{
    write_head(out, word, n)?;
    put(out, b")")
}

// A word with its parenthesis, and a number.
fn write_head(out: &mut Vec<u8>, word: &[u8], n: u32) -> Result<(), Memory>
    ensures { OnOk result (out.new.items ≡ out.old.items ++ (word.now ++ decimal n)) }
{
    put(out, word)?;
    put_number(out, n as u64)
}
