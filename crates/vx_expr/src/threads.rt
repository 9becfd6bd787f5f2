//! What may cross threads.

use vx_array::Array;
use vx_dtype::laws::assert_send_sync;
use vx_scan::ScanPlan;
use vx_tree::{BoundExpression, Expression};

/// Expressions and bound trees may be sent to other threads and shared with them: this compiles.
pub fn expressions_are_send_and_sync(tree: &Expression, bound: &BoundExpression) {
    assert_send_sync(tree);
    assert_send_sync(bound);
}

/// So may plans of scans: this compiles.
pub fn plans_are_send_and_sync(plan: &ScanPlan) {
    assert_send_sync(plan);
}

/// So may arrays: this compiles.
pub fn arrays_are_send_and_sync(array: &Array) {
    assert_send_sync(array);
}
