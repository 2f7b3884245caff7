//! Images opened for scripts: one that fits is ready for its births, another is refused for a name; a disk that holds no image, and disks
//! that fail.
ghost use Rattle.std.specs.Prelude.{◌≤◌, IfOk};
ghost use Rattle.script_types.specs.Rules.{IsScript};
ghost use Rattle.script_types.specs.Scripts.{tables_of};

use base_types::Entity;
use command_open::{Ended, Unopened, open_for};
use command_outcomes::Fault;
use edge_disk::MemoryDisk;
use image_format::format;
use script_reading::read_script;
use script_types::{Script, Why};
use std::alloc::Global;
use std::test::Fail;

const A_AND_L: &str = "container = [{ name = 'a', pages = 1 }]
locus = [{ name = 'l', host = 'a' }]
";

const CONTAINER_L: &str = "container = [{ name = 'b', pages = 1 }, { name = 'l', pages = 1 }]
";

const LOCUS_A: &str = "container = [{ name = 'b', pages = 1 }]
locus = [{ name = 'm', host = 'b' }, { name = 'a', host = 'b' }]
";

fn script_of(alloc: Global, text: &str) -> Result<Script, Fail>
    ensures rules { IfOk result (λ script. IsScript (tables_of script)) }
    ensures frames { IfOk result (λ script. (1 ≤ script.frames) × (script.frames ≤ 256)) }
{
    let read = read_script(alloc, text.as_bytes())?;
    Ok(read.script)
}

// A disk with an empty image, made by its first ten calls.
fn formatted(alloc: Global, fails: &[u64]) -> Result<MemoryDisk, Fail> {
    let disk = MemoryDisk::new(alloc, 2600, 250, fails.to_vec(alloc)?)?;
    let disk = format(disk, 2600).ok().ok_or("an image")?;
    Ok(disk)
}

// The disk behind the births of a container `a` and its locus `l`, with their records.
fn born(alloc: Global, disk: MemoryDisk) -> Result<MemoryDisk, Fail> {
    let script = script_of(alloc, A_AND_L)?;
    let mut kernel = match open_for(alloc, &script, disk) {
        Ok(kernel) => kernel,
        Err(_) => return Err(Fail::from("a kernel")),
    };
    if kernel.births(&script).is_err() {
        return Err(Fail::from("births"));
    }
    let Ended { disk, .. } = kernel.into_ended();
    Ok(disk)
}

// Why the image is not opened for the script of this text, if it isn't.
fn stopped(
    alloc: Global,
    text: &str,
    disk: MemoryDisk,
) -> Result<Option<Unopened<MemoryDisk>>, Fail> {
    let script = script_of(alloc, text)?;
    match open_for(alloc, &script, disk) {
        Ok(_) => Ok(None),
        Err(unopened) => Ok(Some(unopened)),
    }
}

#[test]
fn a_script_that_fits_finds_its_kernel(rt: HostRuntime) -> Result<(), Fail> {
    let disk = born(rt.alloc(), formatted(rt.alloc(), &[])?)?;
    let script = script_of(rt.alloc(), A_AND_L)?;
    let mut kernel = match open_for(rt.alloc(), &script, disk) {
        Ok(kernel) => kernel,
        Err(_) => return Err(Fail::from("a kernel")),
    };
    assert!(rt; kernel.history().len() == 0);
    assert!(rt; kernel.marks().len() == 0);
    assert!(rt; kernel.atlas().find("a") == Some(Entity::of(1)));
    assert!(rt; kernel.atlas().find("l") == Some(Entity::of(41)));
    // Each name is in the atlas, so that nobody is born again.
    assert!(rt; kernel.births(&script).is_ok());
    assert!(rt; kernel.history().len() == 0);
    Ok(())
}

#[test]
fn a_name_of_the_other_kind_is_refused(rt: HostRuntime) -> Result<(), Fail> {
    let mut disk = born(rt.alloc(), formatted(rt.alloc(), &[])?)?;
    for &(text, key) in &[(CONTAINER_L, "container.1.name"), (LOCUS_A, "locus.1.name")] {
        let Unopened { fault, disk: same } = stopped(rt.alloc(), text, disk)?.ok_or("a refusal")?;
        match fault {
            Fault::Script(refusal) => {
                assert!(rt; refusal.why == Why::Clash);
                assert!(rt; refusal.key.as_str() == key);
            }
            _ => return Err(Fail::from("a refusal")),
        }
        disk = same;
    }
    // The image is still opened for the script that fits.
    assert!(rt; stopped(rt.alloc(), A_AND_L, disk)?.is_none());
    Ok(())
}

#[test]
fn a_disk_of_zeros_is_foreign(rt: HostRuntime) -> Result<(), Fail> {
    let disk = MemoryDisk::new(rt.alloc(), 2600, 20, Vec::new(rt.alloc()))?;
    let unopened = stopped(rt.alloc(), A_AND_L, disk)?.ok_or("a fault")?;
    assert!(rt; matches!(&unopened.fault, Fault::Foreign { block: 0, place: 0 }));
    // The sync alone was begun.
    assert!(rt; unopened.disk.moments() == 1);
    Ok(())
}

#[test]
fn each_call_of_an_opening_may_fail(rt: HostRuntime) -> Result<(), Fail> {
    let script = script_of(rt.alloc(), A_AND_L)?;
    let kernel = match open_for(rt.alloc(), &script, formatted(rt.alloc(), &[])?) {
        Ok(kernel) => kernel,
        Err(_) => return Err(Fail::from("a kernel")),
    };
    let Ended { disk, .. } = kernel.into_ended();
    for failing in 11..=disk.calls() {
        let unopened = stopped(rt.alloc(), A_AND_L, formatted(rt.alloc(), &[failing])?)?.ok_or(
            "a fault",
        )?;
        assert!(rt;
            matches!(&unopened.fault, Fault::DiskFault),
            "call {failing}"
        );
    }
    Ok(())
}
