//! Tests of what a store is made of, as far as levels: devices, bytes, roots and logs, memtables, and the parts of tables.
#![tactic(auto)]

#[cfg(test)]
mod codec;
#[cfg(test)]
mod device;
#[cfg(test)]
mod mem;
#[cfg(test)]
mod root;
#[cfg(test)]
mod table_parts;
