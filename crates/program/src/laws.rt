// What holds of programs, as contracts of functions that do nothing else.
ghost use Rattle.program.specs.Laws.{FramesHold};

// A program in a frame goes where the frame puts it, frames nest, and repetitions and sub-programs are their bodies.
pub fn frames_hold() -> u8
    ensures { FramesHold }
{
    0
}
