//! Outboxes as a mail program gets them, written out from noticed-protocol(5). `tests/examples.py`
//! compares them with those of `vectors/`.

/// The outbox of a run that made no notice.
pub const EMPTY: &[u8] = b"\
EHLO mx.example.net\r\n\
QUIT\r\n\
";

/// The outbox with one notice: a failed recipient of the message A1B2C3.
pub const ONE_NOTICE: &[u8] = b"\
EHLO mx.example.net\r\n\
MAIL FROM:<>\r\n\
RCPT TO:<ann@example.com>\r\n\
DATA\r\n\
From: Mail Delivery System <MAILER-DAEMON@mx.example.net>\r\n\
To: <ann@example.com>\r\n\
Subject: Undelivered Mail Returned to Sender\r\n\
Date: Tue, 14 Nov 2023 22:13:20 +0000\r\n\
Message-ID: <B.A1B2C3.1700000000.0@mx.example.net>\r\n\
Auto-Submitted: auto-replied\r\n\
MIME-Version: 1.0\r\n\
Content-Type: multipart/report; report-type=delivery-status;\r\n\
\x20boundary=\"B.A1B2C3.1700000000.0000\"\r\n\
\r\n\
--B.A1B2C3.1700000000.0000\r\n\
Content-Description: Notification\r\n\
Content-Type: text/plain; charset=us-ascii\r\n\
\r\n\
This is the mail system at host mx.example.net.\r\n\
\r\n\
Your message could not be delivered to the recipients below.\r\n\
\r\n\
<bob@example.org>: failed (5.1.1)\r\n\
\r\n\
--B.A1B2C3.1700000000.0000\r\n\
Content-Description: Delivery report\r\n\
Content-Type: message/delivery-status\r\n\
\r\n\
Reporting-MTA: dns; mx.example.net\r\n\
Arrival-Date: Tue, 14 Nov 2023 21:13:20 +0000\r\n\
\r\n\
Final-Recipient: rfc822; bob@example.org\r\n\
Action: failed\r\n\
Status: 5.1.1\r\n\
\r\n\
--B.A1B2C3.1700000000.0000--\r\n\
.\r\n\
QUIT\r\n\
";
