//! Tests of bytes that go on in a file, and of the buffered items that are made of them: they come
//! back, what fails changes none of them, another byte is a fault, and free blocks are used again.
#![tactic(auto)]

#[cfg(test)]
mod file_spools;
#[cfg(test)]
mod parts;
#[cfg(test)]
mod strands;
