/// What counts from an address on, up to the next entry's. In a table the addresses of the entries don't fall.
#[derive(Clone, Copy)]
pub struct Entry<V> {
    pub address: u64,
    pub value: Option<V>,
}

/// A value that counts at the addresses of a range.
#[derive(Clone, Copy)]
pub struct AddressRange<V> {
    /// The least address.
    pub begin: u64,
    /// The address behind the last one; a range that doesn't end above its begin has no address.
    pub end: u64,
    pub value: V,
}
