// What a test is done with.

/// Drops a value out of line. A test that owns a kernel, and hands it on to this when it is done, has no drop of it among its own steps.
pub fn let_go<T: Drop>(_value: T) {}
