//! Both programs, as whoever runs them takes them.
ghost use Rattle.map_run_model.specs.Building.{BuildContract};
ghost use Rattle.map_run_model.specs.Serving.{ServeContract};

use outside::Outside;
use std::alloc::Global;

/// The programs of a static map, over a device, an input and an output. Each answers its exit status, and says its last line.
pub trait MapPrograms<W: Outside> {
    /// Builds a map from the lines of the input, each a key and a value, and writes it to the device. Writes nothing where a map is
    /// there, or where the lines are none.
    fn build(alloc: Global, out: &mut W) -> u8
        ensures { BuildContract W.world W.tells W.tells_input W.tells_output result out.old out.new };

    /// Answers the lines of the input by the map on the device, each reply said before the next line is begun. Writes nothing.
    fn serve(alloc: Global, out: &mut W) -> u8
        ensures { ServeContract W.world W.tells W.tells_input W.tells_output result out.old out.new };
}
