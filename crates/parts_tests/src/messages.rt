//! The message of a fault that no run of the program prints.
use std::alloc::Global;
use text_lines::TextFault;

fn is_said(alloc: Global, fault: TextFault, wanted: &str) -> bool {
    match fault.to_string(alloc) {
        Ok(said) => said.as_str() == wanted,
        Err(_) => false,
    }
}

#[test]
fn want_of_memory_is_said(rt: HostRuntime) {
    assert!(rt; is_said(rt.alloc(), TextFault::OutOfMemory, "out of memory"));
}
