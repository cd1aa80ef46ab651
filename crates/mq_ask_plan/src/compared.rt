use mq_print::Lines;

/// The lines of what is compared.
#[derive(Clone, Copy, Drop)]
pub(crate) struct Compared<'a> {
    pub(crate) old: Lines<'a, 'a, 'a>,
    pub(crate) new: Lines<'a, 'a, 'a>,
    pub(crate) plan: Lines<'a, 'a, 'a>,
}
