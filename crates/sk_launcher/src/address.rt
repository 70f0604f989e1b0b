// Where the store is.
use sk_resp::Text;

/// Where the store is.
#[derive(Debug, Drop)]
pub struct Address {
    /// A name or a number of a host.
    pub host: Text,
    /// A port of TCP, from 1 to 65,535.
    pub port: u16,
}
