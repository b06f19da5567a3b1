//! Domains that are made with one allocation refused.
use domain::{Domain, Limits, MakeError};
use refusing::Refusing;
use std::alloc::Global;
use std::process::Abort;
use std::test::Fail;

/// As many cells and slots as a domain may have.
const LIMITS: Limits = Limits {
    sections: Limits::MOST_SECTIONS,
    periods: Limits::MOST_PERIODS,
    cells: 4,
    slots: 8,
};

/// How many processors and writers a domain had, and how many blocks were out.
type Made = (usize, usize, u64);

/// Makes a domain and drops it.
fn make_and_drop(heap: &Refusing<Global>, processors: usize) -> Result<Made, MakeError> {
    let (domain, cpus, writers) = Domain::<u64, _>::new(heap, processors, LIMITS)?;
    let made = (cpus.len(), writers.len(), heap.out());
    drop(cpus);
    drop(writers);
    drop(domain);
    Ok(made)
}

/// Makes a domain with each allocation refused in turn, and again with memory.
fn make_twice(
    rt: &impl Abort,
    heap: &Refusing<Global>,
    processors: usize,
) -> Result<(), MakeError> {
    heap.refuse(0);
    let whole = make_and_drop(heap, processors)?;
    let asked = heap.asked();
    assert_eq!(rt; (whole.0, whole.1, heap.out()), (processors, 4, 0));
    for nth in 1..=asked {
        heap.refuse(nth);
        assert_eq!(rt;
            make_and_drop(heap, processors),
            Err(MakeError::Memory),
            "at {nth}"
        );
        assert_eq!(rt; (heap.asked(), heap.out()), (nth, 0), "at {nth}");
        heap.refuse(0);
        assert_eq!(rt; make_and_drop(heap, processors), Ok(whole), "at {nth}");
        assert_eq!(rt; (heap.asked(), heap.out()), (asked, 0), "at {nth}");
    }
    Ok(())
}

/// Would catch a refused allocation that is told as another error or not at all, that leaves something allocated, or
/// after which no domain can be made. `bench/refused` does the same with the most processors.
#[test]
fn refuse_make(rt: HostRuntime) -> Result<(), Fail> {
    let heap = Refusing::new(rt.alloc());
    make_twice(&rt, &heap, 1)?;
    make_twice(&rt, &heap, 17)?;
    make_twice(&rt, &heap, 64)?;
    Ok(())
}
