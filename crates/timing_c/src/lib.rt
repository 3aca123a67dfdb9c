// The jobs of the benchmark as C functions, which bench/ links beside its plain Rust reference.
#![tactic(auto)]

#[unsafe(no_mangle)]
pub extern "C" fn squares_by_penalty(readings: &[u8], penalty: u64, times: u32) -> u64 {
    timing::squares_by_penalty(readings, penalty, times)
}

#[unsafe(no_mangle)]
pub extern "C" fn squares_by_count(readings: &[u8], count: u16, times: u32) -> u64 {
    timing::squares_by_count(readings, count, times)
}

#[unsafe(no_mangle)]
pub extern "C" fn squares_path(readings: &[u8], times: u32) -> u64 {
    timing::squares_path(readings, times)
}

#[unsafe(no_mangle)]
pub extern "C" fn pair_by_penalty(readings: &[u8], penalty: u64, times: u32) -> u64 {
    timing::pair_by_penalty(readings, penalty, times)
}

#[unsafe(no_mangle)]
pub extern "C" fn pair_by_count(readings: &[u8], count: u16, times: u32) -> u64 {
    timing::pair_by_count(readings, count, times)
}

#[unsafe(no_mangle)]
pub extern "C" fn pair_path(readings: &[u8], times: u32) -> u64 {
    timing::pair_path(readings, times)
}
