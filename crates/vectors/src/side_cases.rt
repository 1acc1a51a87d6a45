// Calls of side_info: head, tail, fs_ind, duration and, for a write, the record; the bytes are the frame.
use crate::answers::{of_buffer, told};
use crate::buffer_cases::{accepted, cursor};
use crate::number::low;
use buffer_reader::Cursor;
use common::configuration::Configuration;
use side_info::fields::SideInfoError;
use side_info::writer::SideWriteError;
use side_info::{SideInfo, Sns};

// No reading plays a part in the side information, nor in the estimate.
pub(crate) fn configuration(n: [usize; 24]) -> Configuration {
    Configuration {
        fs_ind: n[2],
        duration: n[3],
        reading: 0,
    }
}

pub(crate) fn read(n: [usize; 24], frame: &[u8]) -> [usize; 24] {
    match side_info::reader::read(frame, cursor(n), configuration(n)) {
        Ok((side, next)) => fields(side, next),
        Err(why) => of_read(why),
    }
}

fn of_read(why: SideInfoError) -> [usize; 24] {
    match why {
        SideInfoError::OutsideLimits => told(&[1]),
        SideInfoError::BandwidthIdxOutOfRange(value) => told(&[5, value as usize]),
        SideInfoError::LastNonZeroTupleGreaterThanYLen(lastnz, ne) => told(&[
            6,
            lastnz as usize,
            ne,
        ]),
        SideInfoError::PlcTriggerSns1OutOfRange(joint) => told(&[7, joint as usize]),
        SideInfoError::PlcTriggerSns2OutOfRange(joint) => told(&[8, joint as usize]),
        SideInfoError::Buffer(why) => of_buffer(why),
    }
}

fn fields(side: SideInfo, next: Cursor) -> [usize; 24] {
    let mut all = told(&[0, next.head, next.tail]);
    for (place, field) in all[3..].iter_mut().zip(&listed(side)) {
        *place = *field as usize;
    }
    all
}

fn listed(side: SideInfo) -> [u32; 19] {
    let sns = side.sns;
    [
        side.bandwidth,
        side.lastnz,
        side.lsb,
        side.gain,
        side.tns_first,
        side.tns_second,
        side.pitch,
        sns.lf,
        sns.hf,
        sns.msb,
        sns.submode_lsb,
        sns.gain,
        sns.ls_inda,
        sns.idx_a,
        sns.ls_indb,
        sns.idx_b,
        side.active,
        side.index,
        side.noise,
    ]
}

pub(crate) fn write(n: [usize; 24], frame: &mut [u8]) -> [usize; 24] {
    match side_info::writer::write(frame, cursor(n), configuration(n), side_of(n)) {
        Ok(next) => accepted(0, next),
        Err(why) => of_write(why),
    }
}

fn of_write(why: SideWriteError) -> [usize; 24] {
    match why {
        SideWriteError::OutsideLimits => told(&[1]),
        SideWriteError::FieldOutside => told(&[13]),
        SideWriteError::Buffer(why) => of_buffer(why),
    }
}

fn side_of(n: [usize; 24]) -> SideInfo {
    let sns = sns_of(n);
    SideInfo {
        bandwidth: low(n[4]),
        lastnz: low(n[5]),
        lsb: low(n[6]),
        gain: low(n[7]),
        tns_first: low(n[8]),
        tns_second: low(n[9]),
        pitch: low(n[10]),
        sns,
        active: low(n[20]),
        index: low(n[21]),
        noise: low(n[22]),
    }
}

fn sns_of(n: [usize; 24]) -> Sns {
    Sns {
        lf: low(n[11]),
        hf: low(n[12]),
        msb: low(n[13]),
        submode_lsb: low(n[14]),
        gain: low(n[15]),
        ls_inda: low(n[16]),
        idx_a: low(n[17]),
        ls_indb: low(n[18]),
        idx_b: low(n[19]),
    }
}
