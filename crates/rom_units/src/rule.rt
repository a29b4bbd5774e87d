//! Where the words of a table stand.

use rom_rule::Layout;

#[test]
fn a_table_of_order_4_for_three_callers(rt: HostRuntime) {
    let layout = Layout::new(4, 3);
    assert!(rt; layout.order() == 4 && layout.callers() == 3 && layout.len() == 454);
    assert!(rt; layout.side() == 0 && layout.version() == 1);
    assert!(rt; layout.indicator(1, 0) == 14 && layout.indicator(1, 1) == 15);
    assert!(rt; layout.indicator(2, 0) == 22 && layout.indicator(3, 1) == 31);
    assert!(rt; layout.slot(1, 0) == 38 && layout.slot(2, 0) == 102);
    assert!(rt; layout.slot(3, 63) == 229);
    assert!(rt; layout.main(0) == 230 && layout.main(111) == 341);
    assert!(rt; layout.back(0) == 342 && layout.back(111) == 453);
}
