//! Pools of cells: what is put, bound and released.
use psg_pool::{Cell, CellId, Pool};
use std::test::Fail;

#[test]
fn a_released_cell_is_free_again(rt: HostRuntime) -> Result<(), Fail> {
    let mut pool = Pool::new(rt.alloc());
    let variable = pool.put_free(4)?;
    let constant = pool.put_con(7, &[])?;
    assert_eq!(rt; variable, CellId(0));
    assert_eq!(rt; constant, CellId(1));
    let mark = pool.mark();
    pool.bind(variable, constant)?;
    assert_eq!(rt; pool.cell(variable), Cell::Bound(CellId(1)));
    assert_eq!(rt; pool.cell(constant), Cell::Con { con: 7, count: 0 });
    pool.release(mark);
    assert_eq!(rt; pool.cell(variable), Cell::Free(4));
    assert_eq!(rt; pool.cell(constant), Cell::Con { con: 7, count: 0 });
    Ok(())
}

#[test]
fn arguments_are_read_by_their_place(rt: HostRuntime) -> Result<(), Fail> {
    let mut pool = Pool::new(rt.alloc());
    let first = pool.put_free(0)?;
    let second = pool.put_con(1, &[first])?;
    let third = pool.put_con(2, &[second, first])?;
    assert_eq!(rt; pool.cell(third), Cell::Con { con: 2, count: 2 });
    assert_eq!(rt; pool.arg(second, 0), CellId(0));
    assert_eq!(rt; pool.arg(third, 0), CellId(1));
    assert_eq!(rt; pool.arg(third, 1), CellId(0));
    Ok(())
}

#[test]
fn release_takes_the_cells_after_the_mark(rt: HostRuntime) -> Result<(), Fail> {
    let mut pool = Pool::new(rt.alloc());
    let kept = pool.put_free(4)?;
    let mark = pool.mark();
    let gone = pool.put_con(6, &[kept, kept])?;
    pool.bind(kept, gone)?;
    assert_eq!(rt; pool.cell(kept), Cell::Bound(CellId(1)));
    pool.release(mark);
    assert_eq!(rt; pool.cell(kept), Cell::Free(4));
    let next = pool.put_con(8, &[kept])?;
    assert_eq!(rt; next, CellId(1));
    assert_eq!(rt; pool.cell(next), Cell::Con { con: 8, count: 1 });
    assert_eq!(rt; pool.arg(next, 0), CellId(0));
    Ok(())
}

/// A call that is refused memory leaves the pool as it was. `bench/memory` runs it with each request refused in turn.
#[test]
fn a_refused_call_leaves_the_pool(rt: HostRuntime) -> Result<(), Fail> {
    let mut pool = Pool::new(rt.alloc());
    let Ok(variable) = pool.put_free(4) else {
        return Ok(());
    };
    let Ok(constant) = pool.put_con(7, &[]) else {
        assert_eq!(rt; pool.cell(variable), Cell::Free(4));
        return Ok(());
    };
    let mark = pool.mark();
    if pool.bind(variable, constant).is_err() {
        assert_eq!(rt; pool.cell(variable), Cell::Free(4));
        assert_eq!(rt; pool.cell(constant), Cell::Con { con: 7, count: 0 });
        return Ok(());
    }
    assert_eq!(rt; pool.cell(variable), Cell::Bound(constant));
    pool.release(mark);
    assert_eq!(rt; pool.cell(variable), Cell::Free(4));
    assert_eq!(rt; pool.cell(constant), Cell::Con { con: 7, count: 0 });
    Ok(())
}

const MANY: usize = 100_000;

#[test]
fn many_cells_are_bound_and_released(rt: HostRuntime) -> Result<(), Fail> {
    let mut pool = Pool::new(rt.alloc());
    let constant = pool.put_con(7, &[])?;
    'puts: for k in 0..MANY {
        let id = pool.put_free(9)?;
        assert_eq!(rt; id, CellId(k + 1));
    }
    let mark = pool.mark();
    'binds: for k in 0..MANY {
        pool.bind(CellId(k + 1), constant)?;
    }
    assert_eq!(rt; pool.cell(CellId(1)), Cell::Bound(constant));
    assert_eq!(rt; pool.cell(CellId(MANY)), Cell::Bound(constant));
    pool.release(mark);
    assert_eq!(rt; pool.cell(CellId(1)), Cell::Free(9));
    assert_eq!(rt; pool.cell(CellId(MANY)), Cell::Free(9));
    Ok(())
}
