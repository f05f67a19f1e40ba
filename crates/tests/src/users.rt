//! What the named types are, published messages and tags, sealed files, packets, streams, draws by `rand`, what a
//! caller proves from public contracts alone, and what users write, as `examples` does.

mod authenticated;
mod contracts;
mod copied;
mod cut_files;
mod dice;
mod draws;
mod first_calls;
mod names;
mod readme;
mod sealed_files;
mod sealed_parts;
mod secret_streams;
mod tags;
mod unexported;
mod unsteady;
mod wireguard;
