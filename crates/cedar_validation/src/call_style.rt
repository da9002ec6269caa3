//! How functions are called (Cedar's file `extension.rs`).

/// How an extension function is called.
#[derive(Clone, Copy, Debug, PartialEq, Eq, Hash)]
pub enum CallStyle {
    /// As `ip("127.0.0.1")`.
    FunctionStyle,
    /// As `address.isIpv4()`, where the first argument is the receiver.
    MethodStyle,
}
