//! Each scene is seen in 50 pavings one after the other, and in 64 pavings of which 16 go at a time.
use crate::often::{seen, seen_by_sixteen};
use crate::scenes::Scene;
use std::test::Fail;

#[test]
fn four_workers_settle_at_once(rt: HostRuntime) -> Result<(), Fail> {
    let is_seen = || Scene::AllAtOnce.is_seen(&rt, rt.alloc());
    assert_eq!(rt; seen(50, &is_seen), 50);
    Ok(())
}

#[test]
fn four_workers_settle_at_once_beside_others(rt: HostRuntime) -> Result<(), Fail> {
    let is_seen = || Scene::AllAtOnce.is_seen(&rt, rt.alloc());
    assert_eq!(rt; seen_by_sixteen(&rt, rt.alloc(), 4, &is_seen), 64);
    Ok(())
}

#[test]
fn four_workers_go_on_at_once(rt: HostRuntime) -> Result<(), Fail> {
    let is_seen = || Scene::AllGoOn.is_seen(&rt, rt.alloc());
    assert_eq!(rt; seen(50, &is_seen), 50);
    Ok(())
}

#[test]
fn four_workers_go_on_at_once_beside_others(rt: HostRuntime) -> Result<(), Fail> {
    let is_seen = || Scene::AllGoOn.is_seen(&rt, rt.alloc());
    assert_eq!(rt; seen_by_sixteen(&rt, rt.alloc(), 4, &is_seen), 64);
    Ok(())
}

#[test]
fn jobs_that_one_puts_out_are_worked_by_others(rt: HostRuntime) -> Result<(), Fail> {
    let is_seen = || Scene::HandedOver.is_seen(&rt, rt.alloc());
    assert_eq!(rt; seen(50, &is_seen), 50);
    Ok(())
}

#[test]
fn jobs_are_worked_by_others_beside_others(rt: HostRuntime) -> Result<(), Fail> {
    let is_seen = || Scene::HandedOver.is_seen(&rt, rt.alloc());
    assert_eq!(rt; seen_by_sixteen(&rt, rt.alloc(), 4, &is_seen), 64);
    Ok(())
}

#[test]
fn all_of_four_have_something_to_settle(rt: HostRuntime) -> Result<(), Fail> {
    let is_seen = || Scene::AllWork.is_seen(&rt, rt.alloc());
    assert_eq!(rt; seen(50, &is_seen), 50);
    Ok(())
}

#[test]
fn all_of_four_have_something_to_settle_beside_others(rt: HostRuntime) -> Result<(), Fail> {
    let is_seen = || Scene::AllWork.is_seen(&rt, rt.alloc());
    assert_eq!(rt; seen_by_sixteen(&rt, rt.alloc(), 4, &is_seen), 64);
    Ok(())
}

#[test]
fn want_of_memory_ends_the_stages(rt: HostRuntime) -> Result<(), Fail> {
    let is_seen = || Scene::Ended.is_seen(&rt, rt.alloc());
    assert_eq!(rt; seen(50, &is_seen), 50);
    Ok(())
}

#[test]
fn want_of_memory_ends_the_stages_beside_others(rt: HostRuntime) -> Result<(), Fail> {
    let is_seen = || Scene::Ended.is_seen(&rt, rt.alloc());
    assert_eq!(rt; seen_by_sixteen(&rt, rt.alloc(), 4, &is_seen), 64);
    Ok(())
}
