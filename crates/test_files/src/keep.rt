//! Kept rows of each bad kind, campaigns over the keeper in memory, and the longest line.
use pv_box::IBox;
use pv_interval::Interval;
use pv_keep::rebuild::rebuild;
use pv_keep::*;
use pv_num::Num;
use pv_tree::Path;
use std::alloc::Global;
use std::test::Fail;

const IDENTITY: [u8; 32] = [7; 32];

const OTHER: [u8; 32] = [8; 32];

fn unit_box(alloc: Global) -> Result<IBox, Fail> {
    let zero = Num::fin(0, 0).ok_or("no zero")?;
    let one = Num::fin(1, 0).ok_or("no one")?;
    let part = Interval::new(zero, one).ok_or("no interval")?;
    Ok(IBox::new(vec![in alloc; part]?))
}

fn path_of(digits: &str) -> Result<Path, Fail> {
    let mut path = Path::root();
    for digit in digits.as_bytes() {
        if path.len() >= 200 {
            return Err("too long")?;
        }
        path = if *digit == b'0' {
            path.low()
        } else {
            path.high()
        };
    }
    Ok(path)
}

fn push(alloc: Global, rows: &mut Rows, path: Path, line: &[u8]) -> Result<(), Fail> {
    let line = Line::of(alloc, line)?.ok_or("too long")?;
    match rows.push(Row { path, line }) {
        Ok(()) => Ok(()),
        Err(_) => Err("no memory")?,
    }
}

fn rows_of(alloc: Global, texts: &[(&str, &str)]) -> Result<Rows, Fail> {
    let mut rows = Rows::new(alloc);
    for (path, line) in texts {
        push(alloc, &mut rows, path_of(path)?, line.as_bytes())?;
    }
    Ok(rows)
}

// How many nodes are settled in the paving of [0,1] that rows make, or why there is none.
fn rebuilt(alloc: Global, rows: &Rows) -> Result<Result<u64, CampaignRefused>, Fail> {
    match rebuild(alloc, rows, unit_box(alloc)?) {
        Ok(paving) => Ok(Ok(paving.counts().settled())),
        Err(refused) => Ok(Err(refused)),
    }
}

fn made(alloc: Global, texts: &[(&str, &str)]) -> Result<Result<u64, CampaignRefused>, Fail> {
    rebuilt(alloc, &rows_of(alloc, texts)?)
}

fn bad(row: u64) -> Result<u64, CampaignRefused> {
    Err(CampaignRefused::BadRow { row })
}

const CUT: (&str, &str) = ("", "C 0 1:-1 0:0 1:0");

#[test]
fn a_path_is_that_of_an_open_leaf(rt: HostRuntime) -> Result<(), Fail> {
    let alloc = rt.alloc();
    assert_eq!(rt; made(alloc, &[("0", "X")])?, bad(0));
    assert_eq!(rt; made(alloc, &[("", "X"), ("0", "X")])?, bad(1));
    assert_eq!(rt; made(alloc, &[("", "X"), ("", "X")])?, bad(1));
    assert_eq!(rt; made(alloc, &[CUT, ("00", "X")])?, bad(1));
    assert_eq!(rt; made(alloc, &[CUT, ("1", "X")])?, Ok(2));
    Ok(())
}

#[test]
fn a_line_is_right_for_its_box(rt: HostRuntime) -> Result<(), Fail> {
    let alloc = rt.alloc();
    for line in [
        "",
        "Y",
        "O",
        "X ",
        "I 0:0 1:1",
        "I 0:0",
        "I 0:0 2:-1",
        "C 0 1:0 0:0 1:0",
    ] {
        assert_eq!(rt; made(alloc, &[("", line)])?, bad(0));
    }
    assert_eq!(rt; made(alloc, &[CUT, ("0", "I 0:0 1:0")])?, bad(1));
    assert_eq!(rt;
        made(alloc, &[CUT, ("0", "I 0:0 1:-1"), ("1", "S 1:-1 1:0")])?,
        Ok(3)
    );
    Ok(())
}

// A number 1:E.
fn push_power(text: &mut Vec<u8>, exponent: i16) -> Result<(), Fail> {
    let number = Num::fin(1, exponent).ok_or("no number")?;
    text.push(b' ')?;
    number.write_text(text)?;
    Ok(())
}

// The line of a cut of [0,1:E] at its middle.
fn halving(alloc: Global, exponent: i16) -> Result<Vec<u8>, Fail> {
    let mut text = Vec::new(alloc);
    text.extend_from_slice("C 0".as_bytes())?;
    push_power(&mut text, exponent.saturating_sub(1))?;
    text.extend_from_slice(" 0:0".as_bytes())?;
    push_power(&mut text, exponent)?;
    Ok(text)
}

// 200 cuts, each in the low half of the one before, and a line after them.
fn deep(alloc: Global, last: &[u8]) -> Result<Rows, Fail> {
    let mut rows = Rows::new(alloc);
    let mut path = Path::root();
    for step in 0..200i16 {
        push(
            alloc,
            &mut rows,
            path,
            &halving(alloc, 0i16.saturating_sub(step))?,
        )?;
        if path.len() >= 200 {
            return Err("too deep")?;
        }
        path = path.low();
    }
    push(alloc, &mut rows, path, last)?;
    Ok(rows)
}

#[test]
fn no_cut_stands_behind_200_steps(rt: HostRuntime) -> Result<(), Fail> {
    let alloc = rt.alloc();
    let cut = halving(alloc, -200)?;
    assert_eq!(rt; rebuilt(alloc, &deep(alloc, &cut)?)?, bad(200));
    assert_eq!(rt; rebuilt(alloc, &deep(alloc, "X".as_bytes())?)?, Ok(201));
    Ok(())
}

// What opening a campaign over a keeper in memory is refused for.
fn refusal(alloc: Global, keeper: &mut MemKeeper) -> Result<Option<CampaignRefused>, Fail> {
    Ok(Campaign::open(alloc, keeper, "k", IDENTITY, unit_box(alloc)?).err())
}

#[test]
fn another_identity_is_refused(rt: HostRuntime) -> Result<(), Fail> {
    let alloc = rt.alloc();
    let mut keeper = MemKeeper::new(alloc, vec![in alloc; 3]?);
    assert_eq!(rt; keeper.begin("k", OTHER), Ok(()));
    let other = CampaignRefused::OtherIdentity { kept: OTHER };
    assert_eq!(rt; refusal(alloc, &mut keeper)?, Some(other));
    assert_eq!(rt; keeper.begin("k", OTHER), Ok(()));
    assert_eq!(rt; keeper.begin("k", OTHER), Err(BeginRefused::Failed));
    Ok(())
}

#[test]
fn a_failing_call_is_a_failure(rt: HostRuntime) -> Result<(), Fail> {
    let alloc = rt.alloc();
    let mut keeper = MemKeeper::new(alloc, vec![in alloc; 0, 2]?);
    assert_eq!(rt; refusal(alloc, &mut keeper)?, Some(CampaignRefused::Failed));
    assert_eq!(rt; keeper.begin("k", IDENTITY), Ok(()));
    assert_eq!(rt; refusal(alloc, &mut keeper)?, Some(CampaignRefused::Failed));
    assert_eq!(rt; refusal(alloc, &mut keeper)?, None);
    Ok(())
}

#[test]
fn a_line_has_at_most_660_bytes(rt: HostRuntime) -> Result<(), Fail> {
    let alloc = rt.alloc();
    let bytes = vec![in alloc; b'X'; 661]?;
    let line = Line::of(alloc, &bytes[..660])?.ok_or("refused")?;
    assert_eq!(rt; line.bytes(), &bytes[..660]);
    assert!(rt; Line::of(alloc, &bytes)?.is_none());
    Ok(())
}
