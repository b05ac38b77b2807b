//! Each is seen in 50 commands one after the other, and in 64 commands of which 16 go at a time.
use crate::meets::{RESUME, RESUME_LATE, RUN, RUN_LATE, all_work, goes_on_as_by_one};
use std::test::Fail;
use test_crews::{seen, seen_by_sixteen};

#[test]
fn four_workers_of_a_run_settle_at_once(rt: HostRuntime) -> Result<(), Fail> {
    let is_seen = || RUN.is_seen(&rt, rt.alloc());
    assert_eq!(rt; seen(50, &is_seen), 50);
    Ok(())
}

#[test]
fn they_settle_at_once_beside_others(rt: HostRuntime) -> Result<(), Fail> {
    let is_seen = || RUN.is_seen(&rt, rt.alloc());
    assert_eq!(rt; seen_by_sixteen(&rt, rt.alloc(), 4, &is_seen), 64);
    Ok(())
}

#[test]
fn four_workers_of_a_resume_settle_at_once(rt: HostRuntime) -> Result<(), Fail> {
    let is_seen = || RESUME.is_seen(&rt, rt.alloc());
    assert_eq!(rt; seen(50, &is_seen), 50);
    Ok(())
}

#[test]
fn they_go_on_at_once_beside_others(rt: HostRuntime) -> Result<(), Fail> {
    let is_seen = || RESUME.is_seen(&rt, rt.alloc());
    assert_eq!(rt; seen_by_sixteen(&rt, rt.alloc(), 4, &is_seen), 64);
    Ok(())
}

#[test]
fn a_run_hands_jobs_over(rt: HostRuntime) -> Result<(), Fail> {
    let is_seen = || RUN_LATE.is_seen(&rt, rt.alloc());
    assert_eq!(rt; seen(50, &is_seen), 50);
    Ok(())
}

#[test]
fn a_run_hands_jobs_over_beside_others(rt: HostRuntime) -> Result<(), Fail> {
    let is_seen = || RUN_LATE.is_seen(&rt, rt.alloc());
    assert_eq!(rt; seen_by_sixteen(&rt, rt.alloc(), 4, &is_seen), 64);
    Ok(())
}

#[test]
fn a_resume_hands_jobs_over(rt: HostRuntime) -> Result<(), Fail> {
    let is_seen = || RESUME_LATE.is_seen(&rt, rt.alloc());
    assert_eq!(rt; seen(50, &is_seen), 50);
    Ok(())
}

#[test]
fn a_resume_hands_jobs_over_beside_others(rt: HostRuntime) -> Result<(), Fail> {
    let is_seen = || RESUME_LATE.is_seen(&rt, rt.alloc());
    assert_eq!(rt; seen_by_sixteen(&rt, rt.alloc(), 4, &is_seen), 64);
    Ok(())
}

#[test]
fn all_of_four_settle_something_of_a_run(rt: HostRuntime) -> Result<(), Fail> {
    let is_seen = || all_work(&rt, rt.alloc());
    assert_eq!(rt; seen(50, &is_seen), 50);
    Ok(())
}

#[test]
fn all_of_four_settle_something_beside_others(rt: HostRuntime) -> Result<(), Fail> {
    let is_seen = || all_work(&rt, rt.alloc());
    assert_eq!(rt; seen_by_sixteen(&rt, rt.alloc(), 4, &is_seen), 64);
    Ok(())
}

#[test]
fn what_four_began_is_gone_on_with_as_by_one(rt: HostRuntime) {
    assert_eq!(rt; goes_on_as_by_one(&rt, rt.alloc()), Some(true));
}
