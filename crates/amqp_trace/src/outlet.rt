//! Where lines go.

ghost use Rattle.std.specs.Prelude.{◌≡◌, Err, OnErr, OnOk};
ghost use Rattle.std.specs.Io.KnownBytes.{Keeps};
ghost use Rattle.amqp_frame.specs.Devices.{device_inner};
ghost use Rattle.amqp_trace.specs.Lines.{PutsLine};
ghost use Rattle.amqp_trace.specs.Wires.{outlet_device};

use crate::TraceFault;
use crate::line::Line;
use amqp_frame::Device;
use std::io::Write;

/// Writes lines.
#[derive(Drop)]
pub struct Outlet<B: Write + Drop> {
    writer: Device<B>,
}

impl<B: Write + Drop> Outlet<B> {
    pub fn new(writer: B) -> Self
        ensures { device_inner (outlet_device result) ≡ writer }
    {
        Outlet {
            writer: Device::new(writer),
        }
    }

    /// Writes a line, and its end.
    #[tactic(auto, using(crate::proofs::Puts::puts_line))]
    pub fn put(&mut self, line: &Line) -> Result<(), TraceFault>
        ensures fault { OnErr result (result ≡ Err TraceFault.Write) }
        ensures written { OnOk result (PutsLine (B.contents (device_inner (outlet_device self.old))) (B.contents (device_inner (outlet_device self.new)))) }
    {
        if self.writer.write_all(line.text()).is_err() {
            return Err(TraceFault::Write);
        }
        match self.writer.write_all(line.end()) {
            Ok(()) => Ok(()),
            Err(_) => Err(TraceFault::Write),
        }
    }

    /// Passes on all lines that were written.
    pub fn flush(&mut self) -> Result<(), TraceFault>
        ensures fault { OnErr result (result ≡ Err TraceFault.Write) }
        ensures kept { Keeps (B.contents (device_inner (outlet_device self.old))) (B.contents (device_inner (outlet_device self.new))) }
    {
        match self.writer.flush() {
            Ok(()) => Ok(()),
            Err(_) => Err(TraceFault::Write),
        }
    }

    /// Returns the writer itself.
    pub fn into_inner(self) -> B
        ensures { result ≡ device_inner (outlet_device self) }
    {
        self.writer.into_inner()
    }
}
