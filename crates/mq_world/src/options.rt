/// What a subscription asks for beside its filter.
#[derive(Clone, Copy, Debug)]
pub struct SubscriptionOptions {
    pub qos: u8,
    pub no_local: bool,
    pub rap: bool,
    pub handling: u8,
    pub id: Option<u32>,
}
