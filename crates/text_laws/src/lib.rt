// What holds of texts as a whole, over programs as trees of lines; it has no code but a function whose contract names it.

#![tactic(auto)]

ghost use Rattle.text_laws.specs.Texts.{TextsHold};

// What is written of a program is read as that program's nodes, those lead back to the program, and what is read
// depends on the words alone.
pub fn texts_hold() -> u8
    ensures { TextsHold }
{
    0
}
