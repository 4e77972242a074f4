// The parts of a line that describes a case.
use anyhow::Context;
use std::alloc::Global;

// What stands before the next ';', and what behind it.
pub fn cut(line: &str) -> anyhow::Result<(&str, &str)> {
    line.split_once(';').context("a part is missing")
}

pub fn decimals(heap: Global, text: &str) -> anyhow::Result<Vec<usize>> {
    text.split_whitespace()
        .map(|word| -> anyhow::Result<usize> { Ok(word.parse::<usize>()?) })
        .try_collect(heap)
}

pub fn hex_bytes(heap: Global, text: &str) -> anyhow::Result<Vec<u8>> {
    text.split_whitespace()
        .map(|word| -> anyhow::Result<u8> { Ok(u8::from_str_radix(word, 16)?) })
        .try_collect(heap)
}
