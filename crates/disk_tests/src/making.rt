// Which memory and plan make a disk.
use memdisk::held::HeldDisk;
use memdisk::through::ThroughDisk;
use std::alloc::Global;
use std::test::Fail;

const SIZES: [(usize, bool); 7] = [
    (0, false),
    (511, false),
    (512, true),
    (513, false),
    (1024, true),
    (2097152, true),
    (2097664, false),
];

#[test]
fn whole_blocks_only(rt: HostRuntime) -> Result<(), Fail> {
    let heap = rt.alloc();
    for (bytes, usable) in &SIZES {
        let memory = vec![in heap; 0; *bytes]?;
        match HeldDisk::new(memory, Vec::new(heap)) {
            Ok(disk) => {
                assert!(rt; *usable);
                assert_eq!(rt; disk.into_memory().len(), *bytes);
            }
            Err(refused) => {
                assert!(rt; !*usable);
                assert_eq!(rt; refused.memory.len(), *bytes);
            }
        }
    }
    Ok(())
}

#[test]
fn a_plan_has_no_byte_above_one(rt: HostRuntime) -> Result<(), Fail> {
    let heap = rt.alloc();
    let memory = vec![in heap; 3; 512]?;
    let Err(refused) = ThroughDisk::new(memory, [1, 2].to_vec(heap)?) else {
        return Err(Fail::new("made with a plan byte of 2"));
    };
    assert_eq!(rt; refused.number(), 13);
    assert_eq!(rt; refused.memory.first().copied(), Some(3));
    assert_eq!(rt; refused.plan.last().copied(), Some(2));
    Ok(())
}

#[test]
fn the_blocks_come_back(rt: HostRuntime) -> Result<(), Fail> {
    let heap = rt.alloc();
    let memory = vec![in heap; 3; 512]?;
    let disk = ThroughDisk::new(memory, Vec::new(heap))?;
    assert_eq!(rt; disk.into_memory().last().copied(), Some(3));
    Ok(())
}
