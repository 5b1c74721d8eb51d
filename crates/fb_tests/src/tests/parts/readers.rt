//! Readers of traces that fail.

use fb_wave::WaveError;
use std::io;

#[test]
fn only_one_kind_of_error_is_out_of_memory(rt: HostRuntime) {
    let memory = WaveError::from(io::Error::from(io::ErrorKind::OutOfMemory));
    let other = WaveError::from(io::Error::from(io::ErrorKind::BrokenPipe));
    assert!(rt; matches!(memory, WaveError::Memory));
    assert!(rt; matches!(other, WaveError::Read));
}
