// What an event on lent numbers answers. No `Result`: the shop fixed this form.
use refusal::Refusal;

#[derive(Clone, Copy)]
pub enum Done {
    // By how many steps each axis moved.
    Moved(i64, i64),
    Turned(Refusal),
}
