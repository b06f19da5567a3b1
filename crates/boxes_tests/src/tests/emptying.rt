//! A writer looks at what is there, and empties its cell.
ghost use Rattle.domain.specs.Views.{IsOf};
ghost use Rattle.boxes.specs.Boxes.{IsCellIn, cell_of};

use super::places::{Place, drive, place_of, put, replace};
use boxes::{BoxWriter, NoSlot};
use domain::{Cpu, Domain};
use std::alloc::Global;
use std::test::Fail;

/// Puts a version with no box. Returns the number of an older box that came back.
fn retire(
    domain: &Domain<()>,
    cpu: &mut Cpu<()>,
    writer: &mut BoxWriter<u64, Global>,
) -> Result<Option<u64>, NoSlot>
    requires here { IsOf domain.now cpu.old }
    requires cell { IsCellIn domain.now (cell_of writer.old) }
    ensures here { IsOf domain.now cpu.new }
    ensures cell { IsCellIn domain.now (cell_of writer.new) }
{
    match writer.retire(domain, cpu) {
        Ok(Some(back)) => Ok(Some(*back)),
        Ok(None) => Ok(None),
        Err(refused) => Err(refused),
    }
}

/// The number that is there, and how many have yet to come back.
fn look(writer: &BoxWriter<u64, Global>) -> (Option<u64>, usize) {
    (writer.current().copied(), writer.left())
}

/// Would catch a writer that shows an older value, none, or one that is retired, and one that counts wrongly.
#[test]
fn a_writer_sees_what_is_there(rt: HostRuntime) -> Result<(), Fail> {
    let seven = Box::new(rt.alloc(), 7)?;
    let eight = Box::new(rt.alloc(), 8)?;
    let Place {
        domain,
        mut cpu,
        others: _,
        mut writer,
        boxes: _,
    } = place_of::<u64>(rt.alloc(), 2, 5)?;
    assert_eq!(rt; look(&writer), (None, 0));
    assert_eq!(rt; put(&domain, &mut cpu, &mut writer, seven), true);
    assert_eq!(rt; look(&writer), (Some(7), 1));
    assert_eq!(rt; put(&domain, &mut cpu, &mut writer, eight), true);
    assert_eq!(rt; look(&writer), (Some(8), 2));
    assert_eq!(rt; retire(&domain, &mut cpu, &mut writer), Ok(None));
    assert_eq!(rt; (look(&writer), writer.is_spent()), ((None, 2), false));
    Ok(())
}

/// Would catch a retire that brings nothing back, one that puts nothing, and one that loses a box where no slot is free.
#[test]
fn a_cell_is_emptied(rt: HostRuntime) -> Result<(), Fail> {
    let seven = Box::new(rt.alloc(), 7)?;
    let Place {
        domain,
        mut cpu,
        others: _,
        mut writer,
        boxes: _,
    } = place_of::<u64>(rt.alloc(), 2, 2)?;
    drive(&domain, &mut cpu, 40);
    assert_eq!(rt;
        replace(&domain, &mut cpu, &mut writer, seven).is_ok(),
        true
    );
    assert_eq!(rt; retire(&domain, &mut cpu, &mut writer), Err(NoSlot));
    assert_eq!(rt; look(&writer), (Some(7), 1));
    drive(&domain, &mut cpu, 40);
    assert_eq!(rt; retire(&domain, &mut cpu, &mut writer), Ok(None));
    assert_eq!(rt; look(&writer), (None, 1));
    drive(&domain, &mut cpu, 40);
    assert_eq!(rt; retire(&domain, &mut cpu, &mut writer), Ok(Some(7)));
    assert_eq!(rt; look(&writer), (None, 0));
    Ok(())
}
