//! How the devices of a case behave.

use crate::case::CaseRefusal;
use std::alloc::{AllocError, Global};
use std::str::FromStr;
use wt_span::List;

/// A device in memory: how many bytes it gives or takes in a call at the most (a sink of 0 takes none), and
/// which of its calls fails, if one does; the first call has the number 1.
#[derive(Clone, Copy)]
pub struct Device {
    pub most: usize,
    pub failing: Option<u64>,
}

/// The call that fails: the one of this number, or none.
fn failing_call(number: &str) -> Result<Option<u64>, CaseRefusal> {
    if number.is_empty() {
        return Ok(None);
    }
    match u64::from_str(number) {
        Ok(number) => Ok(Some(number)),
        Err(_) => Err(CaseRefusal::Malformed),
    }
}

impl Device {
    /// A device that never fails, and has no limit.
    fn ample() -> Device {
        Device {
            most: usize::MAX,
            failing: None,
        }
    }

    /// A device by the words `MOST:CALL`; without a call it never fails.
    fn read(words: &str) -> Result<Device, CaseRefusal> {
        let (most, failing) = words.split_once(':').ok_or(CaseRefusal::Malformed)?;
        let most = usize::from_str(most).map_err(|_| CaseRefusal::Malformed)?;
        let failing = failing_call(failing)?;
        Ok(Device { most, failing })
    }
}

/// The four devices of a call.
#[derive(Clone, Copy)]
pub struct Devices {
    pub input: Device,
    pub folder: Device,
    pub out: Device,
    pub err: Device,
    /// Whether the answer says which names the folder was asked for.
    pub tells_names: bool,
}

/// The calls of each device that fail, as devices in memory take them.
#[derive(Drop)]
pub struct FailingCalls {
    pub input: List<u64>,
    pub folder: List<u64>,
    pub out: List<u64>,
    pub err: List<u64>,
}

/// A list of this number, or of none.
fn listed(alloc: Global, call: Option<u64>) -> Result<List<u64>, AllocError> {
    let mut calls = Vec::new(alloc);
    if let Some(call) = call {
        calls.push(call)?;
    }
    Ok(List::from_vec(calls))
}

impl Devices {
    fn ample() -> Devices {
        Devices {
            input: Device::ample(),
            folder: Device::ample(),
            out: Device::ample(),
            err: Device::ample(),
            tells_names: false,
        }
    }

    /// Sets the device of this name.
    fn set(&mut self, name: &str, device: Device) -> Result<(), CaseRefusal> {
        match name {
            "input" if device.most != 0 => self.input = device,
            "folder" if device.most != 0 => self.folder = device,
            "out" => self.out = device,
            "err" => self.err = device,
            _ => return Err(CaseRefusal::Malformed),
        }
        Ok(())
    }

    /// Does what a word says: `NAME:MOST:CALL` sets a device, and `names` asks for the names that the folder is
    /// asked for.
    fn take(&mut self, word: &str) -> Result<(), CaseRefusal> {
        if word == "names" {
            self.tells_names = true;
            return Ok(());
        }
        let (name, rest) = word.split_once(':').ok_or(CaseRefusal::Malformed)?;
        let device = Device::read(rest)?;
        self.set(name, device)
    }

    /// The devices that a field of such words names, joined by `,`; those that it doesn't name never
    /// fail.
    pub fn read(field: &str) -> Result<Devices, CaseRefusal> {
        let mut devices = Devices::ample();
        if field.is_empty() {
            return Ok(devices);
        }
        for word in field.split(',') {
            devices.take(word)?;
        }
        Ok(devices)
    }

    /// The calls that fail.
    pub fn failing_calls(&self, alloc: Global) -> Result<FailingCalls, AllocError> {
        Ok(FailingCalls {
            input: listed(alloc, self.input.failing)?,
            folder: listed(alloc, self.folder.failing)?,
            out: listed(alloc, self.out.failing)?,
            err: listed(alloc, self.err.failing)?,
        })
    }
}
