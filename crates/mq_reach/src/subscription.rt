/// A subscription of a script.
pub struct Subscription {
    /// The number of the line of its subscribe, from 1.
    pub line: u64,
    /// The client id.
    pub client: String,
    /// The user name with which the client is connected there, if it has one.
    pub user: Option<String>,
    /// The filter as it is asked for, with `$share/NAME/` where it is shared.
    pub filter: String,
}

// Opaque to callers' proofs: one step, and not one for each field (docs/explanation/gate.md).
impl Drop for Subscription {
    fn drop(self) {
        let Subscription {
            line: _,
            client: _,
            user: _,
            filter: _,
        } = self;
    }
}
