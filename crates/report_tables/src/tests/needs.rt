//! Reports of one certificate, with and without a schedule, names and static data.

use cert_format::{Certificate, read};
use flash_image::{Device, Names};
use reports::{report_json, report_text};
use std::alloc::{AllocError, Global};
use std::test::Fail;

// The device, the bound, whether the certificate has a schedule, the name of word 0040, and the end of static data.
#[derive(Clone, Copy)]
struct Row {
    device: Device,
    bound: u16,
    attained: bool,
    name: Option<&'static str>,
    static_end: Option<u16>,
    text: &'static str,
    json: &'static str,
}

static ROWS: [Row; 5] = [
    Row {
        device: Device::M328,
        bound: 9,
        attained: true,
        name: None,
        static_end: None,
        text: "bound 9\nwitness attained\nstatic none\ninst root 0000 0000000 0 - need 9\ninst call 0040 0000000 0 - need 7\ninst v17 0020 0008000 0 - need 5\n",
        json: "{\"bound\":9,\"fits\":null,\"instances\":[{\"enables\":0,\"entry\":0,\"i\":0,\"kind\":\"root\",\"name\":null,\"need\":9},{\"enables\":0,\"entry\":64,\"i\":0,\"kind\":\"call\",\"name\":null,\"need\":7},{\"enables\":32768,\"entry\":32,\"i\":0,\"kind\":\"v17\",\"name\":null,\"need\":5}],\"room\":null,\"static\":null,\"witness\":\"attained\"}\n",
    },
    Row {
        device: Device::M328,
        bound: 9,
        attained: false,
        name: Some("a\"b\\c"),
        static_end: Some(0x0104),
        text: "bound 9\nwitness open\nstatic 0104 room 2044 fits yes\ninst root 0000 0000000 0 - need 9\ninst call 0040 0000000 0 a\"b\\c need 7\ninst v17 0020 0008000 0 - need 5\n",
        json: "{\"bound\":9,\"fits\":\"yes\",\"instances\":[{\"enables\":0,\"entry\":0,\"i\":0,\"kind\":\"root\",\"name\":null,\"need\":9},{\"enables\":0,\"entry\":64,\"i\":0,\"kind\":\"call\",\"name\":\"a\\\"b\\\\c\",\"need\":7},{\"enables\":32768,\"entry\":32,\"i\":0,\"kind\":\"v17\",\"name\":null,\"need\":5}],\"room\":2044,\"static\":260,\"witness\":\"open\"}\n",
    },
    Row {
        device: Device::M328,
        bound: 2047,
        attained: false,
        name: None,
        static_end: Some(0x0101),
        text: "bound 2047\nwitness open\nstatic 0101 room 2047 fits yes\ninst root 0000 0000000 0 - need 9\ninst call 0040 0000000 0 - need 7\ninst v17 0020 0008000 0 - need 5\n",
        json: "{\"bound\":2047,\"fits\":\"yes\",\"instances\":[{\"enables\":0,\"entry\":0,\"i\":0,\"kind\":\"root\",\"name\":null,\"need\":9},{\"enables\":0,\"entry\":64,\"i\":0,\"kind\":\"call\",\"name\":null,\"need\":7},{\"enables\":32768,\"entry\":32,\"i\":0,\"kind\":\"v17\",\"name\":null,\"need\":5}],\"room\":2047,\"static\":257,\"witness\":\"open\"}\n",
    },
    Row {
        device: Device::M328,
        bound: 9,
        attained: false,
        name: None,
        static_end: Some(0x0900),
        text: "bound 9\nwitness open\nstatic 0900 room 0 fits no\ninst root 0000 0000000 0 - need 9\ninst call 0040 0000000 0 - need 7\ninst v17 0020 0008000 0 - need 5\n",
        json: "{\"bound\":9,\"fits\":\"no\",\"instances\":[{\"enables\":0,\"entry\":0,\"i\":0,\"kind\":\"root\",\"name\":null,\"need\":9},{\"enables\":0,\"entry\":64,\"i\":0,\"kind\":\"call\",\"name\":null,\"need\":7},{\"enables\":32768,\"entry\":32,\"i\":0,\"kind\":\"v17\",\"name\":null,\"need\":5}],\"room\":0,\"static\":2304,\"witness\":\"open\"}\n",
    },
    Row {
        device: Device::M48,
        bound: 9,
        attained: false,
        name: None,
        static_end: Some(0x0104),
        text: "bound 9\nwitness open\nstatic 0104 room 508 fits yes\ninst root 0000 0000000 0 - need 9\ninst call 0040 0000000 0 - need 7\ninst v17 0020 0008000 0 - need 5\n",
        json: "{\"bound\":9,\"fits\":\"yes\",\"instances\":[{\"enables\":0,\"entry\":0,\"i\":0,\"kind\":\"root\",\"name\":null,\"need\":9},{\"enables\":0,\"entry\":64,\"i\":0,\"kind\":\"call\",\"name\":null,\"need\":7},{\"enables\":32768,\"entry\":32,\"i\":0,\"kind\":\"v17\",\"name\":null,\"need\":5}],\"room\":508,\"static\":260,\"witness\":\"open\"}\n",
    },
];

// The instances of the certificate: the root, a call of word 0040, and the vector 17.
const INSTANCES: &str =
    "instances 3\ninst root 0000 0000000 0 rank 2 need 9\ninst call 0040 0000000 0 rank 1 need 7\ninst v17 0020 0008000 0 rank 0 need 5\n";

// The end of its text with a schedule and without one.
fn ending(attained: bool) -> &'static str {
    if attained {
        "witness attained\nschedule 1\nfill 00\nend\nend\n"
    } else {
        "witness open\nend\n"
    }
}

fn certificate_text(alloc: Global, row: &Row) -> Result<String, AllocError> {
    let bound = row.bound;
    let ending = ending(row.attained);
    format!(in alloc; "stackcert 1\nbound {bound}\nassume 0\n{INSTANCES}nodes 0\n{ending}")
}

fn add_name(names: &mut Names, row: &Row) -> Result<(), AllocError> {
    match row.name {
        Some(name) => names.add(0x40, name.as_bytes()),
        None => Ok(()),
    }
}

// Whether both reports of the certificate are the row's.
fn are_reports(
    alloc: Global,
    row: &Row,
    certificate: &Certificate,
    names: &Names,
) -> Result<bool, AllocError> {
    let text = report_text(alloc, row.device, certificate, names, row.static_end)?;
    let json = report_json(alloc, row.device, certificate, names, row.static_end)?;
    Ok(text.as_slice() == row.text.as_bytes() && json.as_slice() == row.json.as_bytes())
}

// Whether both reports of the row's own certificate are the row's.
fn is_row(alloc: Global, row: &Row) -> Result<bool, Fail> {
    let text = certificate_text(alloc, row)?;
    let certificate = read(alloc, row.device, text.as_bytes()).map_err(|_| "no certificate")?;
    let mut names = Names::new(alloc);
    match add_name(&mut names, row) {
        Ok(()) => Ok(are_reports(alloc, row, &certificate, &names)?),
        Err(fault) => Err(fault.into()),
    }
}

#[test]
fn reports_are_those_worked_by_hand(rt: HostRuntime) -> Result<(), Fail> {
    for (at, row) in ROWS.iter().enumerate() {
        let holds = is_row(rt.alloc(), row)?;
        assert!(rt; holds, "row {at}");
    }
    Ok(())
}
