//! A shelf in memory: its openings, and its slots and its written file lent.
ghost use Rattle.std.specs.Prelude.{◌≡◌, false, IsTrue, IfOk};
ghost use Rattle.io_edges.specs.declared.shelf.Slot.TheVariants.{Script, Capture};
ghost use Rattle.io_edges.specs.ShelfState.{ShelfState};

use crate::edges::{Given, Taken, gives, takes};
use io_edges::{Failed, FaultPlan, MemShelf, Shelf, ShelfSink, Slot, SlotSource};
use std::alloc::AllocError;
use std::process::Abort;
use std::test::Fail;

/// A shelf with two files of one name, whose given openings fail.
fn small_shelf(rt: &HostRuntime, opens: &[u32]) -> Result<MemShelf, AllocError>
    ensures { IfOk result (λ s. (s.script.asked ≡ false) × (s.capture.asked ≡ false) × (s.write_asked ≡ false)) }
{
    let mut files = Vec::new(rt.alloc());
    for (name, bytes) in [
        ("rules", b"first".as_slice()),
        ("rules", b"second"),
        ("frames", b"raw"),
    ] {
        let name = String::from_str(rt.alloc(), name)?;
        files.push((name, bytes.to_vec(rt.alloc())?))?;
    }
    let plan = FaultPlan {
        opens: opens.to_vec(rt.alloc())?,
        script_at: Some(3),
        capture_at: None,
        tx_at: Some(1),
    };
    MemShelf::new(rt.alloc(), files, 8, plan)
}

/// Opens the script, the written file and the capture, and tells which openings succeeded.
fn open_all<S: Shelf>(shelf: &mut S, script: &str, written: &str, capture: &str) -> [bool; 3]
    requires script { IsTrue ((S.state shelf.old).allows_read Script script.now) }
    requires capture { IsTrue ((S.state shelf.old).allows_read Capture capture.now) }
    requires written { IsTrue ((S.state shelf.old).allows_write written.now) }
    requires script_once { (S.state shelf.old).script.asked ≡ false }
    requires capture_once { (S.state shelf.old).capture.asked ≡ false }
    requires written_once { (S.state shelf.old).written.asked ≡ false }
{
    [
        shelf.open_read(Slot::Script, script).is_ok(),
        shelf.open_write(written).is_ok(),
        shelf.open_read(Slot::Capture, capture).is_ok(),
    ]
}

#[test]
fn planned_openings_fail_by_number(rt: HostRuntime) -> Result<(), Fail> {
    let rows: [(&[u32], &str, [bool; 3]); 4] = [
        (&[], "frames", [true, true, true]),
        (&[1], "frames", [true, false, true]),
        (&[2, 0], "frames", [false, true, false]),
        (&[], "absent", [true, true, false]),
    ];
    for (opens, capture, answers) in rows {
        let mut shelf = small_shelf(&rt, opens)?;
        assert_eq!(rt;
            open_all(&mut shelf, "rules", "out", capture),
            answers,
            "{opens:?}"
        );
    }
    Ok(())
}

/// Opens both slots, and lends them in turn: what one loan reads is not read again by the next.
fn lend_in_turn<S: Shelf>(rt: &impl Abort, shelf: &mut S, script: &str, capture: &str)
    requires script { IsTrue ((S.state shelf.old).allows_read Script script.now) }
    requires capture { IsTrue ((S.state shelf.old).allows_read Capture capture.now) }
    requires script_once { (S.state shelf.old).script.asked ≡ false }
    requires capture_once { (S.state shelf.old).capture.asked ≡ false }
{
    let (Ok(()), Ok(())) = (
        shelf.open_read(Slot::Script, script),
        shelf.open_read(Slot::Capture, capture),
    ) else {
        panic!(rt; "an opening failed")
    };
    let front: [Given; 2] = [(Ok(3), b"fir"), (Err(Failed), b"")];
    gives(rt, &mut SlotSource::new(shelf, Slot::Script), &front);
    let whole: [Given; 2] = [(Ok(3), b"raw"), (Ok(0), b"")];
    gives(rt, &mut SlotSource::new(shelf, Slot::Capture), &whole);
    let rest: [Given; 2] = [(Ok(2), b"st"), (Ok(0), b"")];
    gives(rt, &mut SlotSource::new(shelf, Slot::Script), &rest);
}

#[test]
fn slots_are_lent_in_turn(rt: HostRuntime) -> Result<(), Fail> {
    let mut shelf = small_shelf(&rt, &[])?;
    lend_in_turn(&rt, &mut shelf, "rules", "frames");
    Ok(())
}

/// Opens the written file, and writes by a loan.
fn lent_file_takes<S: Shelf>(rt: &impl Abort, shelf: &mut S, name: &str, rows: &[Taken])
    requires allowed { IsTrue ((S.state shelf.old).allows_write name.now) }
    requires once { (S.state shelf.old).written.asked ≡ false }
{
    assert!(rt; shelf.open_write(name).is_ok());
    takes(rt, &mut ShelfSink::new(shelf), rows);
}

#[test]
fn a_written_file_stands_apart(rt: HostRuntime) -> Result<(), Fail> {
    let mut shelf = small_shelf(&rt, &[])?;
    let rows: [Taken; 3] = [(b"ab", Ok(1)), (b"b", Err(Failed)), (b"b", Ok(1))];
    lent_file_takes(&rt, &mut shelf, "rules", &rows);
    assert_eq!(rt; shelf.written(), b"ab".as_slice());
    Ok(())
}
