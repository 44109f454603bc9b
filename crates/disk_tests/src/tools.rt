use disk::disk::{BLOCK, Disk};
use disk::error::DiskError;

// Writes a block of these bytes.
pub(crate) fn fill<D: Disk>(disk: &mut D, place: usize, byte: u8) -> Result<(), DiskError> {
    disk.write(place, &[byte; BLOCK])
}

// The first byte of the place.
pub(crate) fn first<D: Disk>(disk: &mut D, place: usize) -> Result<u8, DiskError> {
    let mut buffer = [0; BLOCK];
    disk.read(place, &mut buffer)?;
    Ok(buffer[0])
}
